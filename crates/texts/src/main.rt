// Writes the texts of worked values, a line for each, reads each back, and writes what was read behind a tab. A text that is not read to
// its end has `!` there. What it must print was asked of the Rust (tests/texts.py).
#![tactic(auto)]

use numbers::numeral::Numeral;
use numbers::timestamp::Timestamp;
use std::io;
use tokens::quoted::Step;
use tokens::values::SymbolRead;

// ---- lines of output

// The first n bytes of a buffer, and a byte behind them.
fn put(rt: &impl Print, buf: &[u8], n: usize, last: u8) -> io::Result<()> {
    program_io::print(rt, buf, n)?;
    rt.write_all(&[last])
}

// What was read back, if all of the text was read; else `!`.
fn back(rt: &impl Print, buf: &[u8], n: usize, end: usize, text: &[u8]) -> io::Result<()> {
    if end == text.len() {
        put(rt, buf, n, b'\n')
    } else {
        bad(rt)
    }
}

// A text, as it is written into a buffer, and a tab; then it is read back.
fn both_ways<W: Fn(&mut [u8]) -> usize, R: Fn(&[u8]) -> io::Result<()>>(
    rt: &impl Print,
    write: W,
    reread: R,
) -> io::Result<()>
    requires write { W.IsAlwaysCallable write }
    requires reread { R.IsAlwaysCallable reread }
{
    let mut buf = [0u8; 1024];
    let n = write(&mut buf);
    put(rt, &buf, n, b'\t')?;
    match buf.get(..n) {
        Some(text) => reread(text),
        None => Ok(()),
    }
}

fn bad(rt: &impl Print) -> io::Result<()> {
    println!(rt; "!")
}

// ---- ints and decimals

fn reread_number(rt: &impl Print, text: &[u8]) -> io::Result<()> {
    let mut buf = [0u8; 64];
    let r = numbers::numeral::numeral_at(text, 0);
    match r {
        Some((Numeral::Int(z), end)) => {
            let n = numbers::int::format_integer(&mut buf, 0, z);
            back(rt, &buf, n, end, text)?;
        }
        Some((Numeral::Decimal(negative, m, e), end)) => {
            let n = numbers::decimal::format_text(&mut buf, 0, negative, m, e);
            back(rt, &buf, n, end, text)?;
        }
        None => bad(rt)?,
    }
    Ok(())
}

fn int(rt: &impl Print, z: i64) -> io::Result<()> {
    both_ways(
        rt,
        |buf| numbers::int::format_integer(buf, 0, z),
        |text| reread_number(rt, text),
    )
}

fn decimal(rt: &impl Print, negative: bool, m: u64, e: i32) -> io::Result<()> {
    both_ways(
        rt,
        |buf| numbers::decimal::format_text(buf, 0, negative, m, e),
        |text| reread_number(rt, text),
    )
}

fn ints(rt: &impl Print) -> io::Result<()> {
    let zs: [i64; 12] = [
        0,
        1,
        -1,
        9,
        10,
        -10,
        99999999,
        100000000,
        9999999999999999,
        10000000000000000,
        9223372036854775807,
        -9223372036854775808,
    ];
    for z in zs {
        int(rt, z)?;
    }
    Ok(())
}

// A magnitude with each exponent from -30 to 30, of both signs.
fn sums(rt: &impl Print, m: u64) -> io::Result<()> {
    for e in -30..=30i32 {
        decimal(rt, false, m, e)?;
        decimal(rt, true, m, e)?;
    }
    Ok(())
}

fn decimals(rt: &impl Print) -> io::Result<()> {
    let ms: [u64; 20] = [
        0,
        7,
        10,
        116,
        1000,
        12345,
        99999,
        100000,
        123456,
        999999,
        1000000,
        1234567,
        99999999,
        123456789,
        10000000000,
        999999999999,
        1000000000000000,
        9999999999999999999,
        10000000000000000000,
        18446744073709551615,
    ];
    for m in ms {
        sums(rt, m)?;
    }
    Ok(())
}

// The largest and the smallest exponents.
fn extremes(rt: &impl Print) -> io::Result<()> {
    let ms: [u64; 4] = [0, 9, 1234567, 18446744073709551615];
    for m in ms {
        decimal(rt, false, m, 2147483647)?;
        decimal(rt, true, m, 2147483646)?;
        decimal(rt, false, m, -2147483647)?;
        decimal(rt, true, m, -2147483648)?;
    }
    Ok(())
}

// ---- timestamps

fn reread_timestamp(rt: &impl Print, text: &[u8]) -> io::Result<()> {
    let mut buf = [0u8; 64];
    let r = numbers::timestamp::timestamp_at(text, 0);
    match r {
        Some((t, end)) => {
            let n = numbers::timestamp::format(&mut buf, 0, t);
            back(rt, &buf, n, end, text)?;
        }
        None => bad(rt)?,
    }
    Ok(())
}

fn timestamp(rt: &impl Print, t: Timestamp) -> io::Result<()> {
    both_ways(
        rt,
        |buf| numbers::timestamp::format(buf, 0, t),
        |text| reread_timestamp(rt, text),
    )
}

// A date, to a precision of a day at most.
fn date(rt: &impl Print, precision: u8, year: u16, month: u8, day: u8) -> io::Result<()> {
    timestamp(
        rt,
        Timestamp {
            precision,
            year,
            month,
            day,
            hour: 0,
            minute: 0,
            second: 0,
            offset: 32767,
            digits: 0,
            fraction: 0,
        },
    )
}

// A minute of 29 February 2024.
fn minute(rt: &impl Print, hour: u8, minute: u8, offset: i16) -> io::Result<()> {
    timestamp(
        rt,
        Timestamp {
            precision: 3,
            year: 2024,
            month: 2,
            day: 29,
            hour,
            minute,
            second: 0,
            offset,
            digits: 0,
            fraction: 0,
        },
    )
}

// The last second of 1999, with a fraction.
fn second(rt: &impl Print, offset: i16, digits: u8, fraction: u32) -> io::Result<()> {
    timestamp(
        rt,
        Timestamp {
            precision: 4,
            year: 1999,
            month: 12,
            day: 31,
            hour: 23,
            minute: 59,
            second: 59,
            offset,
            digits,
            fraction,
        },
    )
}

fn precisions(rt: &impl Print) -> io::Result<()> {
    date(rt, 0, 1, 0, 0)?;
    date(rt, 0, 9999, 0, 0)?;
    date(rt, 1, 2026, 1, 0)?;
    date(rt, 1, 2026, 12, 0)?;
    date(rt, 2, 2000, 2, 29)?;
    date(rt, 2, 1900, 2, 28)?;
    date(rt, 2, 2026, 11, 15)?;
    minute(rt, 0, 0, 0)
}

fn offsets(rt: &impl Print) -> io::Result<()> {
    let offsets: [i16; 11] = [32767, 0, 1, -1, 5, -5, 59, -60, 330, 1439, -1439];
    for offset in offsets {
        minute(rt, 23, 59, offset)?;
        second(rt, offset, 0, 0)?;
    }
    Ok(())
}

// Every count of digits, with the least, a middle and the largest fraction.
fn fractions(rt: &impl Print) -> io::Result<()> {
    let mut top: u32 = 1;
    for digits in 0..10u8 {
        second(rt, 0, digits, 0)?;
        second(rt, 32767, digits, top / 7)?;
        second(rt, -5, digits, top - 1)?;
        if top < 400000000 {
            top = top * 10;
        }
    }
    Ok(())
}

// ---- nulls, bools, floats, symbols, strings, clobs and blobs

fn null(rt: &impl Print, t: u8) -> io::Result<()> {
    let mut buf = [0u8; 32];
    let n = text_rules::text_formatter::format_null(&mut buf, 0, t);
    put(rt, &buf, n, b'\t')?;
    if n <= 32 {
        let r = tokens::values::null_at(&buf[0..n], 0);
        let mut again = [0u8; 32];
        match r {
            Some((u, end)) => {
                let m = text_rules::text_formatter::format_null(&mut again, 0, u);
                back(rt, &again, m, end, &buf[0..n])?;
            }
            None => bad(rt)?,
        }
    }
    Ok(())
}

fn boolean(rt: &impl Print, b: bool) -> io::Result<()> {
    let mut buf = [0u8; 32];
    let n = text_rules::text_formatter::format_bool(&mut buf, 0, b);
    put(rt, &buf, n, b'\t')?;
    if n <= 32 {
        let r = tokens::values::bool_at(&buf[0..n], 0);
        let mut again = [0u8; 32];
        match r {
            Some((c, end)) => {
                let m = text_rules::text_formatter::format_bool(&mut again, 0, c);
                back(rt, &again, m, end, &buf[0..n])?;
            }
            None => bad(rt)?,
        }
    }
    Ok(())
}

fn float(rt: &impl Print, x: f64) -> io::Result<()> {
    let mut buf = [0u8; 32];
    let n = floats::float::format_float(&mut buf, 0, x);
    put(rt, &buf, n, b'\t')?;
    if n <= 32 {
        let r = floats::float::float_at(&buf[0..n], 0);
        let mut again = [0u8; 32];
        match r {
            Some((y, end)) => {
                let m = floats::float::format_float(&mut again, 0, y);
                back(rt, &again, m, end, &buf[0..n])?;
            }
            None => bad(rt)?,
        }
    }
    Ok(())
}

fn words(rt: &impl Print) -> io::Result<()> {
    for t in 0..13u8 {
        null(rt, t)?;
    }
    boolean(rt, true)?;
    boolean(rt, false)?;
    float(rt, 0.0 / 0.0)?;
    float(rt, 1.0 / 0.0)?;
    float(rt, -1.0 / 0.0)?;
    float(rt, 0.0)?;
    float(rt, -0.0)?;
    float(rt, 1.0)?;
    float(rt, 15.0)?;
    float(rt, 100.0)?;
    float(rt, -250.0)?;
    float(rt, 12345678.0)?;
    float(rt, 123456789.0)?;
    float(rt, 1000000000000000.0)?;
    float(rt, -9007199254740991.0)?;
    float(rt, 9007199254740992.0)
}

// The symbol that a text starts with, written again.
fn reread_symbol(rt: &impl Print, text: &[u8]) -> io::Result<()> {
    let mut content = [0u8; 256];
    let mut again = [0u8; 1024];
    let r = tokens::values::symbol_at(text, 0, false, &mut content, 0);
    match r {
        Some(SymbolRead::Text { at, pos }) => {
            if pos <= 256 {
                let m = text_rules::text_formatter::format_symbol_token(
                    &mut again,
                    0,
                    &content[0..pos],
                );
                back(rt, &again, m, at, text)?;
            }
        }
        Some(SymbolRead::Id { n, at }) => {
            let m = text_rules::text_formatter::format_symbol_id(&mut again, 0, n);
            back(rt, &again, m, at, text)?;
        }
        None => bad(rt)?,
    }
    Ok(())
}

fn symbol(rt: &impl Print, s: &[u8]) -> io::Result<()> {
    both_ways(
        rt,
        |buf| text_rules::text_formatter::format_symbol_token(buf, 0, s),
        |text| reread_symbol(rt, text),
    )
}

fn identifier(rt: &impl Print, i: u32) -> io::Result<()> {
    both_ways(
        rt,
        |buf| text_rules::text_formatter::format_symbol_id(buf, 0, i),
        |text| reread_symbol(rt, text),
    )
}

// The string that a text starts with, behind its mark, written again.
fn reread_string(rt: &impl Print, text: &[u8]) -> io::Result<()> {
    let mut content = [0u8; 256];
    let mut again = [0u8; 1024];
    if text.is_empty() {
        return Ok(());
    }
    let r = tokens::quoted::characters_at(text, 1, b'"', false, &mut content, 0);
    match r {
        Some(Step { at, pos }) => {
            if pos <= 256 {
                let m = text_rules::text_formatter::format_string(&mut again, 0, &content[0..pos]);
                back(rt, &again, m, at, text)?;
            }
        }
        None => bad(rt)?,
    }
    Ok(())
}

// What symbols, strings and clobs share is `both_ways`; each writes and reads by functions of its own.
fn string(rt: &impl Print, s: &[u8]) -> io::Result<()> {
    both_ways(
        rt,
        |buf| text_rules::text_formatter::format_string(buf, 0, s),
        |text| reread_string(rt, text),
    )
}

fn reread_clob(rt: &impl Print, text: &[u8]) -> io::Result<()> {
    let mut content = [0u8; 256];
    let mut again = [0u8; 1024];
    let r = tokens::quoted::clob_at(text, 0, &mut content, 0);
    match r {
        Some(Step { at, pos }) => {
            if pos <= 256 {
                let m = text_rules::clobs::format_clob(&mut again, 0, &content[0..pos]);
                back(rt, &again, m, at, text)?;
            }
        }
        None => bad(rt)?,
    }
    Ok(())
}

fn clob(rt: &impl Print, s: &[u8]) -> io::Result<()> {
    both_ways(
        rt,
        |buf| text_rules::clobs::format_clob(buf, 0, s),
        |text| reread_clob(rt, text),
    )
}

fn reread_blob(rt: &impl Print, text: &[u8]) -> io::Result<()> {
    let mut content = [0u8; 256];
    let mut again = [0u8; 1024];
    let r = tokens::blobs::blob_at(text, 0, &mut content, 0);
    match r {
        Some(Step { at, pos }) => {
            if pos <= 256 {
                let m = text_rules::blobs::format_blob_at(&mut again, 0, &content, 0, pos);
                back(rt, &again, m, at, text)?;
            }
        }
        None => bad(rt)?,
    }
    Ok(())
}

fn blob(rt: &impl Print, s: &[u8]) -> io::Result<()> {
    both_ways(
        rt,
        |buf| text_rules::blobs::format_blob_at(buf, 0, s, 0, s.len()),
        |text| reread_blob(rt, text),
    )
}

// Every character of one byte, and some of two, three and four.
fn strings(rt: &impl Print) -> io::Result<()> {
    for b in 0..128u8 {
        string(rt, &[b])?;
    }
    string(rt, b"")?;
    string(rt, b"a \"b\" c\td\n\\ 'e'")?;
    let wide = [
        0xC2, 0x80, 0xDF, 0xBF, 0xE0, 0xA0, 0x80, 0xED, 0x9F, 0xBF, 0xEE, 0x80, 0x80, 0xEF, 0xBF,
        0xBF, 0xF0, 0x90, 0x80, 0x80, 0xF4, 0x8F, 0xBF, 0xBF,
    ];
    string(rt, &wide)
}

fn symbols(rt: &impl Print) -> io::Result<()> {
    for b in 0..128u8 {
        symbol(rt, &[b])?;
    }
    let words: [&[u8]; 24] = [
        b"",
        b"true",
        b"false",
        b"nan",
        b"null",
        b"True",
        b"inf",
        b"nulls",
        b"$",
        b"$7",
        b"$007",
        b"$7a",
        b"$ion",
        b"$ion_",
        b"$ion_1_0",
        b"$ion_12_34",
        b"$ion_1_0_0",
        b"$ion_1_",
        b"$ion__0",
        b"$ion_symbol_table",
        b"_",
        b"a b",
        b"7up",
        b"norad_id",
    ];
    for word in words {
        symbol(rt, word)?;
    }
    for i in [0, 10, u32::MAX] {
        identifier(rt, i)?;
    }
    Ok(())
}

// Every byte, and all of them together.
fn clobs(rt: &impl Print) -> io::Result<()> {
    let mut all = [0u8; 256];
    for b in 0..=255u8 {
        clob(rt, &[b])?;
        all[b as usize] = b;
    }
    clob(rt, b"")?;
    clob(rt, &all[0..200])
}

// Of every length up to 99.
fn blobs(rt: &impl Print) -> io::Result<()> {
    let mut all = [0u8; 100];
    for i in 0..100usize {
        blob(rt, &all[0..i])?;
        all[i] = i as u8;
    }
    Ok(())
}

fn main(rt: HostRuntime) -> io::Result<()> {
    let rt = &rt;
    ints(rt)?;
    decimals(rt)?;
    extremes(rt)?;
    precisions(rt)?;
    offsets(rt)?;
    fractions(rt)?;
    words(rt)?;
    strings(rt)?;
    symbols(rt)?;
    clobs(rt)?;
    blobs(rt)
}
