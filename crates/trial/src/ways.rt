//! What a crash picks of a file's versions.

/// Picks the newest of up to twelve versions: it is one less than a multiple of each number up to twelve.
const NEWEST: u32 = 27719;

/// What a crash leaves of a file: what was synced, the newest version, or now one version and now another.
#[derive(Clone, Copy)]
pub enum Way {
    Synced,
    Newest,
    Mixed,
}

/// All of them.
pub const WAYS: [Way; 3] = [Way::Synced, Way::Newest, Way::Mixed];

impl Way {
    /// What it picks: of the lengths, then of each sector's versions.
    pub fn picks(self) -> &'static [u32] {
        match self {
            Way::Synced => &[],
            Way::Newest => &[NEWEST; 60],
            Way::Mixed => &[
                NEWEST, 1, 0, 1, 2, 0, 1, 0, 3, 1, 0, 1, 2, 0, 1, 0, 1, 1, 0, 2, 1, 0, 1, 3, 0,
            ],
        }
    }

    /// Its word in a script.
    pub fn word(self) -> &'static str {
        match self {
            Way::Synced => "synced",
            Way::Newest => "newest",
            Way::Mixed => "mixed",
        }
    }

    /// The way of a word.
    pub fn from_word(word: &str) -> Option<Way> {
        match word {
            "synced" => Some(Way::Synced),
            "newest" => Some(Way::Newest),
            "mixed" => Some(Way::Mixed),
            _ => None,
        }
    }

    /// The way of a number: each of three numbers in turn has one.
    pub fn of_number(number: u64) -> Way {
        match number % 3 {
            0 => Way::Synced,
            1 => Way::Newest,
            _ => Way::Mixed,
        }
    }
}

/// Two ways: of the database file, and of the log.
#[derive(Clone, Copy)]
pub struct Ways {
    pub db: Way,
    pub log: Way,
}
