// Text into a lent buffer: bytes, numbers in decimal, and the lines of a report. Each function answers the place behind what it wrote.
// Stays: printing by hand. The buffer is fixed and lent, its exact bytes are promised, and room for them is asked of the caller: `write!` into it would answer a
// `Result` whose error no caller can meet, and every line would have to take it away.
#![tactic(auto)]

ghost use Rattle.std.specs.Prelude.{◌≡◌, [], ◌∷◌, ◌+◌, ◌<◌, ◌≤◌, length};
ghost use Rattle.report_text.specs.Texts.{decimal, put, lay, items_of, line_of};

// Writes one byte.
pub fn put_byte(out: &mut [u8], at: usize, b: u8) -> usize
    requires { at < length out.old }
    ensures { put result out.new ≡ lay out.old at (b ∷ []) }
{
    out[at] = b;
    at + 1
}

// Writes the bytes of `text`.
pub fn put_bytes(out: &mut [u8], at: usize, text: &[u8]) -> usize
    requires { at + length text.now ≤ length out.old }
    ensures { put result out.new ≡ lay out.old at text.now }
{
    let end = at + text.len();
    out[at..end].copy_from_slice(text);
    end
}

// Writes x in decimal: what is above its last digit, then that digit.
pub fn put_number(out: &mut [u8], at: usize, x: u64) -> usize
    requires { at + length (decimal x) ≤ length out.old }
    ensures { put result out.new ≡ lay out.old at (decimal x) }
{
    if x < 10 {
        return put_byte(out, at, b'0' + x as u8);
    }
    let p = put_number(out, at, x / 10);
    put_byte(out, p, b'0' + (x % 10) as u8)
}

// Writes the numbers of `list`, each after one space.
fn put_items(out: &mut [u8], at: usize, list: &[u32]) -> usize
    requires { at + length (items_of list.now (length list.now)) ≤ length out.old }
    ensures { put result out.new ≡ lay out.old at (items_of list.now (length list.now)) }
{
    let mut p = at;
    for &x in list {
        let q = put_byte(out, p, b' ');
        p = put_number(out, q, u64::from(x));
    }
    p
}

// Writes a line of a report: a name, how many numbers `list` has, a colon, and these numbers.
pub fn put_line(out: &mut [u8], at: usize, name: &[u8], list: &[u32]) -> usize
    requires { at + length (line_of name.now list.now (length list.now)) ≤ length out.old }
    ensures { put result out.new ≡ lay out.old at (line_of name.now list.now (length list.now)) }
{
    let a = put_bytes(out, at, name);
    let b = put_byte(out, a, b' ');
    let c = put_number(out, b, list.len() as u64);
    let d = put_byte(out, c, b':');
    let e = put_items(out, d, list);
    put_byte(out, e, b'\n')
}
