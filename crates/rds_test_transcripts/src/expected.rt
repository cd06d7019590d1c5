use std::alloc::AllocError;

/// Adds a line of an expected text with its end. In it `{f:N}` is short for the hexadecimal digits of N bytes that count
/// up from 0, each modulo 256.
pub fn push_line(text: &mut String, line: &str) -> Result<(), AllocError> {
    match line.split_once("{f:") {
        Some((front, rest)) => {
            text.push_str(front)?;
            push_short(text, rest)?;
        }
        None => text.push_str(line)?,
    }
    text.push('\n')
}

// Adds what `N}` and the rest of its line stand for.
fn push_short(text: &mut String, short: &str) -> Result<(), AllocError> {
    let Some((number, rest)) = short.split_once("}") else {
        return text.push_str(short);
    };
    push_counting_bytes(text, number.parse::<u32>().unwrap_or(0))?;
    text.push_str(rest)
}

fn push_counting_bytes(text: &mut String, count: u32) -> Result<(), AllocError> {
    for i in 0..count {
        let byte = i % 256;
        text.push(digit(byte / 16))?;
        text.push(digit(byte % 16))?;
    }
    Ok(())
}

// A hexadecimal digit in lower case.
fn digit(value: u32) -> char {
    char::from_digit(value, 16).unwrap_or('0')
}
