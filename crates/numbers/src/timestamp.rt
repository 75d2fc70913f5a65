// Timestamps: which are well formed, their text, and reading it. A port of `format` of types/timestamp.rs.
ghost use Rattle.std.specs.Prelude.{◌≡◌, ℕ, suc, IfSome, ◌+◌, ◌*◌, ◌/◌, ◌%◌, ◌≤◌, ◌<◌, true, List, ◌∷◌, ◌++◌, pos, length, drop};
ghost use Rattle.std.proofs.Math.Option.{some};
ghost use Rattle.std.proofs.lemmas.List.Edits.{sets};
ghost use Rattle.output.specs.Logic.{byte};
ghost use Rattle.output.specs.Wrote.{Wrote, limit, le_bytes};
ghost use Rattle.text_rules.specs.Digits.{run, behind_digits};
ghost use Rattle.text_rules.specs.Reading.{Reads, found};
ghost use Rattle.numbers.specs.Timestamp.{is_leap, days_in, field_well, date_well, time_well, fraction_well, offset_well, well_formed, year_and_month, date, hour_and_minute, date_hour_and_minute, fractional_seconds, offset_text, timestamp_text};
ghost use Rattle.numbers.specs.TimestampRead.{fixed, starts_digit, clock, dated, timed, zoned, checked, minutes, west, offset_of, fraction_of, second_of, time_of, behind_month, behind_year, timestamp};
ghost use Rattle.numbers.specs.TimestampSteps.{clock_read, Marked, Usual, to_second};

use text_rules::digits;
use text_rules::texts::stands;

// A point in time to a precision: 0 year, 1 month, 2 day, 3 minute, 4 second. Fields finer than the precision are 0. The offset
// is in minutes, 32767 where it is unknown. The fraction of a second has so many digits. The precision is a number, and the unknown offset too,
// as `well_formed` and the nodes of a tape have them.
#[derive(Clone, Copy)]
pub struct Timestamp {
    pub precision: u8,
    pub year: u16,
    pub month: u8,
    pub day: u8,
    pub hour: u8,
    pub minute: u8,
    pub second: u8,
    pub offset: i16,
    pub digits: u8,
    pub fraction: u32,
}

// The offset that is not known.
const UNKNOWN: i16 = 32767;

// ---- which are well formed

#[tactic(auto, unfolding(crate::specs::Timestamp::is_leap))]
fn is_leap_year(year: u16) -> bool
    ensures { result ≡ is_leap year }
{
    year % 400 == 0 || year % 4 == 0 && year % 100 != 0
}

#[tactic(auto, unfolding(crate::specs::Timestamp::days_in))]
fn days_in_month(year: u16, month: u8) -> u8
    ensures { result ≡ days_in year month }
{
    match month {
        2 if is_leap_year(year) => 29,
        2 => 28,
        4 | 6 | 9 | 11 => 30,
        _ => 31,
    }
}

// A field lies within its bounds, or is 0 where it is finer than the precision.
#[tactic(auto, unfolding(crate::specs::Timestamp::field_well))]
fn is_field(reached: bool, lo: u16, hi: u16, n: u16) -> bool
    ensures { result ≡ field_well reached lo hi n }
{
    if reached { lo <= n && n <= hi } else { n == 0 }
}

#[tactic(auto, unfolding(crate::specs::Timestamp::date_well))]
fn is_date(precision: u8, year: u16, month: u8, day: u8) -> bool
    ensures { result ≡ date_well precision year month day }
{
    precision <= 4
        && is_field(true, 1, 9999, year)
        && is_field(1 <= precision, 1, 12, month as u16)
        && is_field(
            2 <= precision,
            1,
            days_in_month(year, month) as u16,
            day as u16,
        )
}

#[tactic(auto, unfolding(crate::specs::Timestamp::time_well))]
fn is_time(precision: u8, hour: u8, minute: u8, second: u8) -> bool
    ensures { result ≡ time_well precision hour minute second }
{
    is_field(3 <= precision, 0, 23, hour as u16)
        && is_field(3 <= precision, 0, 59, minute as u16)
        && is_field(4 <= precision, 0, 59, second as u16)
}

#[tactic(auto, unfolding(crate::specs::Timestamp::offset_well))]
fn is_offset(precision: u8, offset: i16) -> bool
    ensures { result ≡ offset_well precision offset }
{
    offset == UNKNOWN || 3 <= precision && offset.unsigned_abs() <= 1439
}

#[tactic(auto, unfolding(crate::specs::Timestamp::fraction_well))]
fn is_fraction(precision: u8, digits: u8, fraction: u32) -> bool
    ensures { result ≡ fraction_well precision digits fraction }
{
    // what `pow10` asks for
    digits <= 9
        && is_field(4 <= precision, 0, 9, digits as u16)
        && (fraction as u64) < digits::pow10(digits as usize)
}

// The timestamp is one that a tape may hold.
#[tactic(auto, unfolding(crate::specs::Timestamp::well_formed))]
pub fn is_well_formed(t: Timestamp) -> bool
    ensures { result ≡ well_formed t }
{
    is_date(t.precision, t.year, t.month, t.day)
        && is_time(t.precision, t.hour, t.minute, t.second)
        && is_offset(t.precision, t.offset)
        && is_fraction(t.precision, t.digits, t.fraction)
}

// ---- their text

// Writes `YYYY-MM`.
fn format_year_and_month(buf: &mut [u8], pos: usize, year: u16, month: u8) -> usize
    ensures { Wrote buf.old buf.new pos result (year_and_month year month) }
{
    let p = digits::put_padded(buf, pos, year as u64, 4);
    let q = output::put(buf, p, b'-');
    digits::put_pair(buf, q, month as u64)
}

// `YYYY-MM-DD` of the digits in d, for which there is room.
fn date_here(buf: &mut [u8], pos: usize, d: u64)
    requires { pos + 10 ≤ length buf.old }
    ensures { buf.new ≡ sets buf.old pos (le_bytes 4 d ++ (byte "-" ∷ le_bytes 2 (d / 4294967296)) ++ (byte "-" ∷ le_bytes 2 (d / 281474976710656))) }
{
    output::store::<4>(buf, pos, d);
    buf[pos + 4] = b'-';
    output::store::<2>(buf, pos + 5, d / 4294967296);
    buf[pos + 7] = b'-';
    output::store::<2>(buf, pos + 8, d / 281474976710656);
}

// Writes `YYYY-MM-DD`.
fn format_date(buf: &mut [u8], pos: usize, year: u16, month: u8, day: u8) -> usize
    ensures { Wrote buf.old buf.new pos result (date year month day) }
{
    if pos < buf.len().saturating_sub(9) {
        date_here(
            buf,
            pos,
            digits::four_pairs(
                (year / 100) as u64 % 100,
                (year % 100) as u64,
                month as u64 % 100,
                day as u64 % 100,
            ),
        );
        return pos + 10;
    }
    let p = format_year_and_month(buf, pos, year, month);
    let q = output::put(buf, p, b'-');
    digits::put_pair(buf, q, day as u64)
}

// `hh:mm`, for which there is room.
fn clock_here(buf: &mut [u8], pos: usize, hour: u16, minute: u16)
    requires { pos + 5 ≤ length buf.old }
    ensures { buf.new ≡ sets buf.old pos (hour_and_minute hour minute) }
{
    let w = digits::four_pairs(hour as u64 % 100, minute as u64 % 100, 0, 0);
    output::store::<2>(buf, pos, w);
    buf[pos + 2] = b':';
    output::store::<2>(buf, pos + 3, w / 65536);
}

// Writes `hh:mm`.
fn format_hour_and_minute(buf: &mut [u8], pos: usize, hour: u16, minute: u16) -> usize
    ensures { Wrote buf.old buf.new pos result (hour_and_minute hour minute) }
{
    if pos < buf.len().saturating_sub(4) {
        clock_here(buf, pos, hour, minute);
        return pos + 5;
    }
    let p = digits::put_pair(buf, pos, hour as u64);
    let q = output::put(buf, p, b':');
    digits::put_pair(buf, q, minute as u64)
}

// Writes `YYYY-MM-DDThh:mm`.
fn format_date_hour_and_minute(buf: &mut [u8], pos: usize, t: Timestamp) -> usize
    ensures { Wrote buf.old buf.new pos result (date_hour_and_minute t.year t.month t.day t.hour t.minute) }
{
    let p = format_date(buf, pos, t.year, t.month, t.day);
    let q = output::put(buf, p, b'T');
    format_hour_and_minute(buf, q, t.hour as u16, t.minute as u16)
}

fn format_fractional_seconds(buf: &mut [u8], pos: usize, digits: u8, fraction: u32) -> usize
    ensures { Wrote buf.old buf.new pos result (fractional_seconds digits fraction) }
{
    if digits == 0 {
        return output::bounded(pos);
    }
    let p = output::put(buf, pos, b'.');
    digits::put_padded(buf, p, fraction as u64, digits as usize)
}

fn format_offset(buf: &mut [u8], pos: usize, offset: i16) -> usize
    ensures { Wrote buf.old buf.new pos result (offset_text offset) }
{
    if offset == UNKNOWN {
        let n = output::put(buf, pos, b'-');
        return format_hour_and_minute(buf, n, 0, 0);
    }
    let m = offset.unsigned_abs();
    let p = output::put(buf, pos, if offset < 0 { b'-' } else { b'+' });
    format_hour_and_minute(buf, p, m / 60, m % 60)
}

// True only where no field has more digits than its place. One test for five fields: it says no of 64 to 99, which no real field has.
fn is_short(t: Timestamp) -> bool
    ensures { result ≡ true → (t.year < 10000) × (t.month < 100) × (t.day < 100) × (t.hour < 100) × (t.minute < 100) × (t.second < 100) }
{
    t.year < 10000 && (t.month | t.day | t.hour | t.minute | t.second) < 64
}

// `hh:mm:ss` of the digits in c, for which there is room. Not one with `date_here`: places, widths and marks are all others.
fn time_here(buf: &mut [u8], pos: usize, c: u64)
    requires { pos + 8 ≤ length buf.old }
    ensures { buf.new ≡ sets buf.old pos (le_bytes 2 c ++ (byte ":" ∷ le_bytes 2 (c / 65536)) ++ (byte ":" ∷ le_bytes 2 (c / 4294967296))) }
{
    output::store::<2>(buf, pos, c);
    buf[pos + 2] = b':';
    output::store::<2>(buf, pos + 3, c / 65536);
    buf[pos + 5] = b':';
    output::store::<2>(buf, pos + 6, c / 4294967296);
}

// `YYYY-MM-DDThh:mm:ss`, for which there is room.
fn second_here(buf: &mut [u8], pos: usize, t: Timestamp)
    requires { (pos + 19 ≤ length buf.old) × (t.year < 10000) × (t.month < 100) × (t.day < 100) × (t.hour < 100) × (t.minute < 100) × (t.second < 100) }
    ensures { buf.new ≡ sets buf.old pos (to_second t) }
{
    let d = digits::four_pairs(
        (t.year / 100) as u64,
        (t.year % 100) as u64,
        t.month as u64,
        t.day as u64,
    );
    let c = digits::four_pairs(t.hour as u64, t.minute as u64, t.second as u64, 0);
    date_here(buf, pos, d);
    buf[pos + 10] = b'T';
    time_here(buf, pos + 11, c);
}

// Writes `YYYY-MM-DDThh:mm:ss`.
fn format_to_second(buf: &mut [u8], pos: usize, t: Timestamp) -> usize
    ensures { Wrote buf.old buf.new pos result (to_second t) }
{
    if is_short(t) && pos < buf.len().saturating_sub(18) {
        second_here(buf, pos, t);
        return pos + 19;
    }
    let p = format_date_hour_and_minute(buf, pos, t);
    let q = output::put(buf, p, b':');
    digits::put_pair(buf, q, t.second as u64)
}

// Writes a timestamp.
pub fn format(buf: &mut [u8], pos: usize, t: Timestamp) -> usize
    ensures { Wrote buf.old buf.new pos result (timestamp_text t) }
{
    match t.precision {
        0 => {
            let p = digits::put_padded(buf, pos, t.year as u64, 4);
            output::put(buf, p, b'T')
        }
        1 => {
            let p = format_year_and_month(buf, pos, t.year, t.month);
            output::put(buf, p, b'T')
        }
        2 => {
            let p = format_date(buf, pos, t.year, t.month, t.day);
            output::put(buf, p, b'T')
        }
        3 => {
            let p = format_date_hour_and_minute(buf, pos, t);
            format_offset(buf, p, t.offset)
        }
        _ => {
            let s = format_to_second(buf, pos, t);
            let e = format_fractional_seconds(buf, s, t.digits, t.fraction);
            format_offset(buf, e, t.offset)
        }
    }
}

// ---- reading

#[tactic(auto, unfolding(crate::specs::TimestampRead::starts_digit))]
fn stands_digit(text: &[u8], at: usize) -> bool
    requires { at ≤ length text.now }
    ensures { result ≡ starts_digit (drop at text.now) }
{
    at < text.len() && digits::is_digit(text[at])
}

// Exactly w digits.
fn fixed_at(text: &[u8], at: usize, w: usize) -> Option<(u64, usize)>
    requires { (at ≤ length text.now) × (w ≤ 9) }
    ensures { Reads text.now (at + w) (fixed w (drop at text.now)) (found result) }
{
    let mut n = 0;
    for i in at..at + w {
        if !stands_digit(text, i) {
            return None;
        }
        n = n * 10 + (text[i] - 48) as u64;
    }
    Some((n, at + w))
}

// `hh:mm`
fn clock_at(text: &[u8], at: usize) -> Option<(u8, u8, usize)>
    requires { at ≤ length text.now }
    ensures { Reads text.now at (clock (drop at text.now)) (clock_read result) }
{
    let (h, a) = fixed_at(text, at, 2)?;
    if stands(text, a, b':') {
        let (m, e) = fixed_at(text, a + 1, 2)?;
        return Some((h as u8, m as u8, e));
    }
    None
}

// `hh:mm` of an offset, in minutes.
fn minutes_at(text: &[u8], at: usize) -> Option<(u64, usize)>
    requires { at ≤ length text.now }
    ensures { Reads text.now at (minutes (drop at text.now)) (found result) }
{
    let (h, m, e) = clock_at(text, at)?;
    if 23 < h || 59 < m {
        return None;
    }
    Some((h as u64 * 60 + m as u64, e))
}

// The offset east of Greenwich.
fn east_of(m: u64) -> i16
    requires { m < 1440 }
    ensures { result ≡ pos m }
{
    m as i16
}

// The offset behind a minus, where 0 says that it is unknown.
fn west_of(m: u64) -> i16
    requires { m < 1440 }
    ensures { result ≡ west m }
{
    if m == 0 { UNKNOWN } else { -(m as i16) }
}

fn with_offset(t: Timestamp, offset: i16) -> Timestamp
    ensures { result ≡ zoned t offset }
{
    Timestamp { offset, ..t }
}

fn with_date(precision: u8, year: u16, month: u8, day: u8) -> Timestamp
    ensures { result ≡ dated precision year month day }
{
    Timestamp {
        precision,
        year,
        month,
        day,
        hour: 0,
        minute: 0,
        second: 0,
        offset: UNKNOWN,
        digits: 0,
        fraction: 0,
    }
}

fn with_time(
    precision: u8,
    t: Timestamp,
    hour: u8,
    minute: u8,
    second: u8,
    digits: u8,
    fraction: u32,
) -> Timestamp
    ensures { result ≡ timed precision t hour minute second digits fraction }
{
    Timestamp {
        precision,
        hour,
        minute,
        second,
        digits,
        fraction,
        ..t
    }
}

// What was read, if it is well formed.
fn checked_at(t: Timestamp, end: usize) -> Option<(Timestamp, usize)>
    ensures { (text : List ℕ) → end ≤ length text → Reads text end (checked t (drop end text)) (found result) }
{
    if is_well_formed(t) {
        return Some((t, end));
    }
    None
}

// The offset, the last part.
fn offset_at(text: &[u8], at: usize, t: Timestamp) -> Option<(Timestamp, usize)>
    requires { at ≤ length text.now }
    ensures { Reads text.now at (offset_of t (drop at text.now)) (found result) }
{
    if stands(text, at, b'Z') {
        return checked_at(with_offset(t, 0), at + 1);
    }
    if stands(text, at, b'+') {
        let (m, e) = minutes_at(text, at + 1)?;
        return checked_at(with_offset(t, east_of(m)), e);
    }
    if stands(text, at, b'-') {
        let (m, e) = minutes_at(text, at + 1)?;
        return checked_at(with_offset(t, west_of(m)), e);
    }
    None
}

// Behind the point: digits, and the offset.
fn fraction_at(
    text: &[u8],
    at: usize,
    t: Timestamp,
    h: u8,
    m: u8,
    s: u8,
) -> Option<(Timestamp, usize)>
    requires { at ≤ length text.now }
    ensures { Reads text.now at (fraction_of t h m s (run (drop at text.now)) (behind_digits (drop at text.now))) (found result) }
{
    let (f, e) = digits::digits_at(text, at, 0)?;
    let k = e - at;
    if k == 0 || 9 < k {
        return None;
    }
    offset_at(text, e, with_time(4, t, h, m, s, k as u8, f as u32))
}

// Behind `hh:mm:`.
fn second_at(text: &[u8], at: usize, t: Timestamp, h: u8, m: u8) -> Option<(Timestamp, usize)>
    requires { at ≤ length text.now }
    ensures { Reads text.now at (second_of t h m (drop at text.now)) (found result) }
{
    let (s, a) = fixed_at(text, at, 2)?;
    if stands(text, a, b'.') {
        return fraction_at(text, a + 1, t, h, m, s as u8);
    }
    offset_at(text, a, with_time(4, t, h, m, s as u8, 0, 0))
}

// The time of a day.
fn time_at(text: &[u8], at: usize, t: Timestamp) -> Option<(Timestamp, usize)>
    requires { at ≤ length text.now }
    ensures { Reads text.now at (time_of t (drop at text.now)) (found result) }
{
    let (h, m, a) = clock_at(text, at)?;
    if stands(text, a, b':') {
        return second_at(text, a + 1, t, h, m);
    }
    offset_at(text, a, with_time(3, t, h, m, 0, 0, 0))
}

// Behind `YYYY-MM-`.
fn behind_month(text: &[u8], at: usize, year: u16, month: u8) -> Option<(Timestamp, usize)>
    requires { at ≤ length text.now }
    ensures { Reads text.now at (behind_month year month (drop at text.now)) (found result) }
{
    let (d, a) = fixed_at(text, at, 2)?;
    if stands(text, a, b'T') {
        let t = with_date(2, year, month, d as u8);
        let b = a + 1;
        if stands_digit(text, b) {
            return time_at(text, b, t);
        }
        return checked_at(t, b);
    }
    None
}

// Behind `YYYY-`, whatever stands there.
fn month_at(text: &[u8], at: usize, year: u16) -> Option<(Timestamp, usize)>
    requires { at ≤ length text.now }
    ensures { Reads text.now at (behind_year year (drop at text.now)) (found result) }
{
    let (m, a) = fixed_at(text, at, 2)?;
    if stands(text, a, b'T') {
        return checked_at(with_date(1, year, m as u8, 0), a + 1);
    }
    if stands(text, a, b'-') {
        return behind_month(text, a + 1, year, m as u8);
    }
    None
}

// Two digits, for which there is room.
fn pair_at(text: &[u8], at: usize) -> Option<u8>
    requires { at + 2 ≤ length text.now }
    ensures { IfSome result (λ n. fixed 2 (drop at text.now) ≡ some (n, drop (at + 2) text.now)) }
{
    let a = text[at];
    let b = text[at + 1];
    if !digits::is_digit(a) || !digits::is_digit(b) {
        return None;
    }
    Some((a - b'0') * 10 + (b - b'0'))
}

// True only where all marks of `MM-DDThh:mm:ssZ` stand at their places.
fn is_marked(text: &[u8], at: usize) -> bool
    requires { at + 15 ≤ length text.now }
    ensures { result ≡ true → Marked text.now at }
{
    text[at + 14] == b'Z'
        && text[at + 2] == b'-'
        && text[at + 5] == b'T'
        && text[at + 8] == b':'
        && text[at + 11] == b':'
}

// True only where the fields lie within their bounds. It says no of the days that not every month has.
fn is_usual(year: u16, month: u8, day: u8, hour: u8, minute: u8, second: u8) -> bool
    ensures { result ≡ true → Usual year month day hour minute second }
{
    1 <= year
        && year <= 9999
        && 1 <= month
        && month <= 12
        && 1 <= day
        && day <= 28
        && hour <= 23
        && minute <= 59
        && second <= 59
}

// Behind `YYYY-`: `MM-DDThh:mm:ssZ`, the most frequent, where no month or leap year is asked for.
fn usual_at(text: &[u8], at: usize, year: u16) -> Option<Timestamp>
    requires { at + 15 ≤ length text.now }
    ensures { IfSome result (λ t. behind_year year (drop at text.now) ≡ some (t, drop (at + 15) text.now)) }
{
    if !is_marked(text, at) {
        return None;
    }
    let month = pair_at(text, at)?;
    let day = pair_at(text, at + 3)?;
    let hour = pair_at(text, at + 6)?;
    let minute = pair_at(text, at + 9)?;
    let second = pair_at(text, at + 12)?;
    if !is_usual(year, month, day, hour, minute, second) {
        return None;
    }
    let date = with_date(2, year, month, day);
    let time = with_time(4, date, hour, minute, second, 0, 0);
    Some(with_offset(time, 0))
}

// Behind `YYYY-`.
fn behind_year(text: &[u8], at: usize, year: u16) -> Option<(Timestamp, usize)>
    requires { at ≤ length text.now }
    ensures { Reads text.now at (behind_year year (drop at text.now)) (found result) }
{
    if 14 < text.len() - at {
        if let Some(t) = usual_at(text, at, year) {
            return Some((t, at + 15));
        }
    }
    month_at(text, at, year)
}

// The timestamp that the text from a place on starts with.
pub fn timestamp_at(text: &[u8], at: usize) -> Option<(Timestamp, usize)>
    requires { at ≤ length text.now }
    ensures { Reads text.now (suc at) (timestamp (drop at text.now)) (found result) }
{
    let (y, a) = fixed_at(text, at, 4)?;
    if stands(text, a, b'T') {
        return checked_at(with_date(0, y as u16, 0, 0), a + 1);
    }
    if stands(text, a, b'-') {
        return behind_year(text, a + 1, y as u16);
    }
    None
}
