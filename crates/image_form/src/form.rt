// Where the blocks of an image of form 1 start: the one place that knows.
ghost use Rattle.std.specs.Prelude.{◌≡◌, ◌<◌, ◌≤◌};
ghost use Rattle.image_form.specs.Form.{form1, flag_offset, vertex_offset, total_bytes};

// The number of the form: word 0.
pub const FORM: u32 = 1;

// Where the header says how many bytes there are: word 1.
pub const TOTAL_AT: usize = 4;

// Where it says n, the number of darts: word 2.
pub const DARTS_AT: usize = 8;

// Where it says where the rows start: word 3.
pub const ROWS_AT: usize = 12;

// Where it says where the flags start: word 4.
pub const FLAGS_AT: usize = 16;

// Where it says v, the number of vertices: word 5.
pub const VERTICES_AT: usize = 20;

// Where it says where the vertex records start: word 6.
pub const RECORDS_AT: usize = 24;

// Where the rows start: behind seven words.
pub const ROW_OFFSET: u32 = 28;

// The bytes of a dart's images.
const ROW_BYTES: u32 = 16;

// The bytes of a vertex record.
const RECORD_BYTES: u32 = 28;

// How many darts an image has, or may have: few enough that every place in it is a 32-bit number. Whoever makes the value shows that, behind a test;
// whoever is given it need not ask.
#[derive(Clone, Copy)]
pub struct Darts {
    pub number: u32,
    pub ghost few: { number ≤ 1048576 },
}

// Where the flags start.
pub fn flag_offset(n: Darts) -> u32
    ensures { result ≡ flag_offset form1 n.number }
{
    ROW_OFFSET + ROW_BYTES * n.number
}

// Where the vertex records start.
pub fn vertex_offset(n: Darts) -> u32
    ensures { result ≡ vertex_offset form1 n.number }
{
    flag_offset(n) + n.number
}

// Where the vertex records end, and the image with them.
pub fn total_bytes(n: Darts, v: u32) -> u32
    requires { v < n.number }
    ensures { result ≡ total_bytes form1 n.number v }
{
    vertex_offset(n) + RECORD_BYTES * v
}
