// What came of cases: by refusal, and a sum over every byte that the report would print.
use report_program::report_bytes;

// What came of a case: its map was reported, or it was refused by the word or block of BadImage or by NotAMap; or any other, of which there must be none.
#[derive(Clone, Copy, Debug, PartialEq, Eq)]
pub enum Outcome {
    Accepted,
    BadImage(usize),
    NotAMap,
    Other,
}

// How often each outcome came.
#[derive(Clone, Copy, Debug)]
pub struct Counts {
    pub accepted: u64,
    pub bad_image: [u64; 9],
    pub not_a_map: u64,
    pub other: u64,
}

impl Counts {
    // None has come yet.
    pub const NONE: Counts = Counts {
        accepted: 0,
        bad_image: [0; 9],
        not_a_map: 0,
        other: 0,
    };

    // Counts an outcome.
    pub fn count(&mut self, outcome: Outcome) {
        match outcome {
            Outcome::Accepted => one_more(&mut self.accepted),
            Outcome::BadImage(word) => match self.bad_image.get_mut(word) {
                Some(times) => one_more(times),
                None => one_more(&mut self.other),
            },
            Outcome::NotAMap => one_more(&mut self.not_a_map),
            Outcome::Other => one_more(&mut self.other),
        }
    }
}

// Counts one case more.
fn one_more(times: &mut u64) {
    *times = times.wrapping_add(1);
}

// What came of a case, and the sum behind it.
#[derive(Clone, Copy, Debug)]
pub struct Told {
    pub outcome: Outcome,
    pub sum: u32,
}

// The sum with one byte more.
fn with_byte(sum: u32, x: u8) -> u32 {
    ((31 * u64::from(sum) + u64::from(x)) % 4294967291) as u32
}

// The sum with all bytes of a text.
fn with_text(sum: u32, text: &[u8]) -> u32 {
    text.iter().fold(sum, |s, &x| with_byte(s, x))
}

// The outcome of a refusal by BadImage, from the digit of its word or block.
fn bad_image(digit: u8) -> Outcome {
    match digit {
        b'0'..=b'8' => Outcome::BadImage(usize::from(digit - b'0')),
        _ => Outcome::Other,
    }
}

// The outcome that a report tells: `darts ..`, `refused 12 W ..` for BadImage, `refused 3 ..` for NotAMap.
fn outcome_of(text: &[u8]) -> Outcome {
    if text.len() < 12 {
        return Outcome::Other;
    }
    if text[0] == b'd' {
        return Outcome::Accepted;
    }
    if text[8] == b'3' {
        return Outcome::NotAMap;
    }
    if text[8] != b'1' || text[9] != b'2' || text[10] != b' ' {
        return Outcome::Other;
    }
    bad_image(text[11])
}

// What a report tells, and the sum with its text.
fn judged(text: &[u8], sum: u32) -> Told {
    Told {
        outcome: outcome_of(text),
        sum: with_text(sum, text),
    }
}

// Reports a case.
pub(crate) fn reported(bytes: &[u8], sum: u32) -> Told {
    let mut text = [0u8; 24576];
    let end = report_bytes(bytes, false, &mut text);
    judged(&text[..end], sum)
}
