//! Writing a header.

ghost use Rattle.sqlval.specs.PageSizes.{IsPageSize};
ghost use Rattle.std.specs.Prelude.{◌≡◌, ℕ, List, length, take};
ghost use Rattle.byteorder.specs.Endian.{big_number};
ghost use Rattle.db_header.specs.declared.fields.Header.{Header};
ghost use Rattle.db_header.specs.Header.{IsHeader, size_said};
ghost use Rattle.db_header.specs.Writing.{IsBytes, IsOnlySizeSpelling, IsOnlySpelling};

use crate::fields::Header;

/// The four bytes of a number, big-endian.
fn quad(n: u32) -> [u8; 4]
    ensures value { big_number 4 result ≡ n }
    ensures only { IsOnlySpelling 4 n result }
    ensures len { length result ≡ 4 }
{
    n.to_be_bytes()
}

/// The two bytes of a number, big-endian.
fn pair(number: u16) -> [u8; 2]
    ensures value { big_number 2 result ≡ number }
    ensures only { IsOnlySpelling 2 number result }
    ensures len { length result ≡ 2 }
{
    number.to_be_bytes()
}

/// The two bytes of a page size: 1 stands for 65536.
#[tactic(auto, unfolding(crate::specs::Header::size_said))]
fn size_pair(n: u32) -> [u8; 2]
    requires { IsPageSize n }
    ensures value { size_said (big_number 2 result) ≡ n }
    ensures only { IsOnlySizeSpelling n result }
    ensures len { length result ≡ 2 }
{
    if n == 65536 {
        return pair(1);
    }
    pair(n as u16)
}

/// The 100 bytes of a header. `is_page_size` is the test of its page size.
pub fn write(header: &Header) -> [u8; 100]
    requires { IsPageSize header.now.page_size }
    ensures is { IsHeader result header.now }
    // There is no other spelling.
    ensures only { (other : List ℕ) → IsBytes other → IsHeader other header.now
        → take 100 other ≡ result }
{
    let [p0, p1] = size_pair(header.page_size);
    let [c0, c1, c2, c3] = quad(header.change_counter);
    let [s0, s1, s2, s3] = quad(header.size);
    let [t0, t1, t2, t3] = quad(header.freelist_trunk);
    let [f0, f1, f2, f3] = quad(header.freelist_count);
    let [k0, k1, k2, k3] = quad(header.schema_cookie);
    let [d0, d1, d2, d3] = quad(header.default_cache_size);
    let [u0, u1, u2, u3] = quad(header.user_version);
    let [a0, a1, a2, a3] = quad(header.application_id);
    let [v0, v1, v2, v3] = quad(header.version_valid_for);
    let [w0, w1, w2, w3] = quad(header.writer_version);
    [
        b'S', b'Q', b'L', b'i', b't', b'e', b' ', b'f', b'o', b'r', b'm', b'a', b't', b' ', b'3',
        0, p0, p1, 2, 2, 0, 64, 32, 32, c0, c1, c2, c3, s0, s1, s2, s3, t0, t1, t2, t3, f0, f1, f2,
        f3, k0, k1, k2, k3, 0, 0, 0, 4, d0, d1, d2, d3, 0, 0, 0, 0, 0, 0, 0, 1, u0, u1, u2, u3, 0,
        0, 0, 0, a0, a1, a2, a3, 0, 0, 0, 0, 0, 0, 0, 0, 0, 0, 0, 0, 0, 0, 0, 0, 0, 0, 0, 0, v0,
        v1, v2, v3, w0, w1, w2, w3,
    ]
}
