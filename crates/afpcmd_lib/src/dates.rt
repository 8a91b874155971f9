//! Dates.
use afp_base::OutOfMemory;
use std::alloc::Global;

/// Seconds from 1970 to 2000.
pub(crate) const TO_2000: i64 = 946_684_800;

/// A date that means never.
pub(crate) const NEVER: i32 = i32::MIN;

/// The server's date of local seconds from 1970: the nearest that it can hold.
pub(crate) fn server_date(seconds: i64) -> i32 {
    let since = seconds.saturating_sub(TO_2000);
    if since > i64::from(i32::MAX) {
        i32::MAX
    } else if since <= i64::from(i32::MIN) {
        i32::MIN + 1
    } else {
        since as i32
    }
}

/// Local seconds of a server's date.
pub(crate) fn local_date(date: i32) -> i64 {
    i64::from(date).saturating_add(TO_2000)
}

/// Seconds from 0000-03-01 to 2000-01-01, from which on days are counted: a leap day is then the last of its year.
const FROM_0000_03_01: i64 = 63_108_720_000;

/// A day: its year, its month and its number in it.
#[derive(Clone, Copy)]
struct Day {
    year: u64,
    month: u64,
    day: u64,
}

/// The day that is so many days behind 0000-03-01.
fn day_of(days: u64) -> Day {
    let era = days / 146_097;
    let of_era = days % 146_097;
    let leap_days = (of_era / 1460)
        .saturating_sub(of_era / 36_524)
        .saturating_add(of_era / 146_096);
    let year_of_era = of_era.saturating_sub(leap_days) / 365;
    let before = year_of_era
        .saturating_mul(365)
        .saturating_add(year_of_era / 4)
        .saturating_sub(year_of_era / 100);
    let of_year = of_era.saturating_sub(before);
    let from_march = of_year.saturating_mul(5).saturating_add(2) / 153;
    let days_before = from_march.saturating_mul(153).saturating_add(2) / 5;
    let is_late = from_march >= 10;
    let year = era.saturating_mul(400).saturating_add(year_of_era);
    Day {
        year: if is_late {
            year.saturating_add(1)
        } else {
            year
        },
        month: if is_late {
            from_march.saturating_sub(9)
        } else {
            from_march.saturating_add(3)
        },
        day: of_year.saturating_sub(days_before).saturating_add(1),
    }
}

/// A date as `2026-11-30 20:15`.
pub(crate) fn date_text(alloc: Global, date: i32) -> Result<String, OutOfMemory> {
    if date == NEVER {
        return Ok(String::from_str(alloc, "           never")?);
    }
    let seconds = FROM_0000_03_01.saturating_add(i64::from(date)) as u64;
    let Day { year, month, day } = day_of(seconds / 86_400);
    let hour = seconds / 3600 % 24;
    let minute = seconds / 60 % 60;
    Ok(format!(in alloc; "{year:04}-{month:02}-{day:02} {hour:02}:{minute:02}")?)
}
