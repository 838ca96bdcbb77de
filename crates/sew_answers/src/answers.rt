// A command's answer as the five numbers that the output holds.
ghost use Rattle.std.specs.Prelude.{◌≡◌, ◌+◌, ◌*◌, ◌≤◌, length, Err};
ghost use Rattle.sew_answers.specs.Words.{answer_width, answer_words, count_of, answered, Fits, FitsRefusal};

use map_betas::error::{Answer, Refusal, Told};

// The numbers that one answer takes.
pub const WIDTH: usize = 5;

// A refusal's numbers: it has written nothing.
// Stays: a method, since `From` asks nothing of its caller and a length in a refusal has to fit its number.
fn refused_words(w: Refusal) -> [u32; WIDTH]
    requires { FitsRefusal w }
    ensures { result ≡ answer_words (Err w) }
{
    let told = Told::from(w);
    [
        told.number,
        told.first as u32,
        told.second as u32,
        told.third as u32,
        0,
    ]
}

// An answer's five numbers: its number, its three values, and the entries that the command has written. Done, only the dart is a value.
fn words_of(a: Answer) -> [u32; WIDTH]
    requires { Fits a }
    ensures { result ≡ answer_words a }
{
    match a {
        Ok(done) => [0, done.value, 0, 0, done.count as u32],
        Err(w) => refused_words(w),
    }
}

// The entries that a command has written: none where it was refused.
pub fn count_of(a: Answer) -> usize
    ensures { result ≡ count_of a }
{
    match a {
        Ok(done) => done.count,
        Err(_) => 0,
    }
}

// Writes an answer as the output's answer number k, and nothing else.
pub fn put_answer(output: &mut [u32], k: usize, a: Answer)
    requires { (answer_width * k + answer_width ≤ length output.old) × Fits a }
    ensures { output.new ≡ answered output.old k a }
{
    let p = WIDTH * k;
    output[p..p + WIDTH].copy_from_slice(&words_of(a));
}
