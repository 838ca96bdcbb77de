// The loans of each call, by their lengths: a literal for each set of loans that a call has.
ghost use Rattle.std.specs.Prelude.{◌≡◌};
ghost use Rattle.map_betas.specs.Guards.{no_loans, scratch_of, orbit_loans, list_loans, vertex_loans, reader_loans, counted_as, command_loans};

// The lengths of the loans that a call has beside rows and flags, which every call on a map has; a loan that it has not counts as `ENOUGH`.
#[derive(Clone, Copy)]
pub struct Loans {
    pub marks: usize,
    pub queue: usize,
    pub output: usize,
    pub vertices: usize,
    pub coordinates: usize,
}

// As long as any map could ask: three coordinates for each of 1,048,576 darts.
const ENOUGH: usize = 3145728;

// The loans of a call that has none beside rows and flags.
pub const NO_LOANS: Loans = Loans {
    marks: ENOUGH,
    queue: ENOUGH,
    output: ENOUGH,
    vertices: ENOUGH,
    coordinates: ENOUGH,
};

// The loans of a call that has marks and a queue.
pub fn scratch(marks: usize, queue: usize) -> Loans
    ensures { result ≡ scratch_of marks queue }
{
    Loans {
        marks,
        queue,
        ..NO_LOANS
    }
}

// The loans of an orbit call.
pub fn orbit_loans(marks: usize, output: usize) -> Loans
    ensures { result ≡ orbit_loans marks output }
{
    Loans {
        marks,
        output,
        ..NO_LOANS
    }
}

// The loans of a list call.
pub fn list_loans(marks: usize, queue: usize, output: usize) -> Loans
    ensures { result ≡ list_loans marks queue output }
{
    Loans {
        marks,
        queue,
        output,
        ..NO_LOANS
    }
}

// The loans of a 2-sew.
pub fn vertex_loans(marks: usize, queue: usize, vertices: usize, coordinates: usize) -> Loans
    ensures { result ≡ vertex_loans marks queue vertices coordinates }
{
    Loans {
        marks,
        queue,
        vertices,
        coordinates,
        ..NO_LOANS
    }
}

// The loans that the reader and the writer have of those that other calls have too.
pub fn reader_loans(vertices: usize, coordinates: usize) -> Loans
    ensures { result ≡ reader_loans vertices coordinates }
{
    Loans {
        vertices,
        coordinates,
        ..NO_LOANS
    }
}

// What a loan that is not measured in darts counts as: `ENOUGH` where it has the places needed, else nothing.
fn counted_as(lent: usize, needed: usize) -> usize
    ensures { result ≡ counted_as lent needed }
{
    if needed <= lent { ENOUGH } else { 0 }
}

// The loans of a list of commands, whose answers need as many places of the output as `needed` says.
pub fn command_loans(
    marks: usize,
    queue: usize,
    output: usize,
    needed: usize,
    vertices: usize,
    coordinates: usize,
) -> Loans
    ensures { result ≡ command_loans marks queue output needed vertices coordinates }
{
    Loans {
        marks,
        queue,
        output: counted_as(output, needed),
        vertices,
        coordinates,
    }
}
