//! The two bytes of a database file that say its mode.

ghost use Rattle.std.specs.Prelude.{◌≡◌, ◌↔◌, ◌≤◌, IsTrue, length};
ghost use Rattle.pager_older.specs.Older.{HasVersions, as_wal};

/// Whether the write and the read version are both this.
pub(crate) fn has_versions(page: &[u8], version: u8) -> bool
    requires { 20 ≤ length page.now }
    ensures { IsTrue result ↔ HasVersions version page.now }
{
    page[18..20] == [version, version]
}

/// Puts the versions of WAL mode into page 1.
pub(crate) fn put_versions(page: &mut [u8])
    ensures { 20 ≤ length page.old → page.new ≡ as_wal page.old }
{
    if page.len() >= 20 {
        page[18..20].copy_from_slice(&[2, 2]);
    }
}
