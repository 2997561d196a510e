//! The time of a line of a log.
use std::time::{Clock, SystemTime, UNIX_EPOCH};

const DAY: u64 = 86_400_000;

/// A date in the Gregorian calendar and a time of day, in UTC, as RFC 3339 writes it: `2026-11-29T07:10:29.828Z`.
#[derive(Clone, Copy, Debug, PartialEq, Eq)]
pub struct Stamp {
    text: [u8; 24],
}

impl Stamp {
    /// The time now, where the machine's clock can be read. Years above 9999 count as that.
    pub fn now<R: Clock>(rt: &R) -> Option<Stamp> {
        let passed = SystemTime::now(rt).ok()?.duration_since(UNIX_EPOCH).ok()?;
        Some(Stamp::of(u64::try_from(passed.as_millis()).unwrap_or(0)))
    }

    /// The time so many milliseconds after the beginning of 1970.
    pub fn of(millis: u64) -> Stamp {
        let mut stamp = Stamp {
            text: *b"0000-00-00T00:00:00.000Z",
        };
        let (year, month, day) = date_of(millis / DAY);
        let time = millis % DAY;
        stamp.put(0, 4, year);
        stamp.put(5, 2, month);
        stamp.put(8, 2, day);
        stamp.put(11, 2, time / 3_600_000);
        stamp.put(14, 2, time / 60_000 % 60);
        stamp.put(17, 2, time / 1000 % 60);
        stamp.put(20, 3, time % 1000);
        stamp
    }

    /// Its 24 characters, which are printable ASCII.
    pub fn bytes(&self) -> &[u8] {
        &self.text
    }

    // Writes the last digits of a number, from this place on.
    fn put(&mut self, at: usize, digits: usize, number: u64) {
        let mut left = number;
        for back in 0..digits {
            let place = at.wrapping_add(digits).wrapping_sub(back).wrapping_sub(1);
            if let Some(digit) = self.text.get_mut(place) {
                *digit = b'0' + (left % 10) as u8;
            }
            left /= 10;
        }
    }
}

// Year, month and day of the day so many days after the first of 1970. A year is counted from March here, so that the day that a
// leap year adds is its last one; 146,097 days are 400 years.
fn date_of(days: u64) -> (u64, u64, u64) {
    let days = days.min(2_932_896) + 719_468;
    let of_era = days % 146_097;
    let leap_days = of_era / 1460 - of_era / 36_524 + of_era / 146_096;
    let year_of_era = (of_era - leap_days) / 365;
    let of_year = of_era.saturating_sub(365 * year_of_era + year_of_era / 4 - year_of_era / 100);
    let month = (5 * of_year + 2) / 153;
    let day = of_year - (153 * month + 2) / 5 + 1;
    let year = days / 146_097 * 400 + year_of_era;
    if month < 10 {
        (year, month + 3, day)
    } else {
        (year + 1, month - 9, day)
    }
}
