// What a call answers. Ports cmap/error.rs: `LinkError` and `SewError` are the refusals 6 to 10; the others are this build's own.
ghost use Rattle.std.specs.Prelude.{◌≡◌};
ghost use Rattle.map_betas.specs.Answers.{told_of, loan_number, refusal_of, tell_of};

// The loans of a call, in the order of their numbers.
#[derive(Clone, Copy, Debug, PartialEq, Eq)]
pub enum Loan {
    Marks,
    Queue,
    Output,
    Flags,
    Vertices,
    Coordinates,
    Rows,
    // A loan by its number: no call answers one, but a refusal that a caller makes may name any.
    Numbered(u32),
}

// The number of a loan.
impl From<Loan> for u64 {
    ghost from_gives = { λ loan number. number ≡ loan_number loan };

    fn from(loan: Loan) -> u64 {
        match loan {
            Loan::Marks => 1,
            Loan::Queue => 2,
            Loan::Output => 3,
            Loan::Flags => 4,
            Loan::Vertices => 5,
            Loan::Coordinates => 6,
            Loan::Rows => 7,
            Loan::Numbered(k) => u64::from(k),
        }
    }
}

// Why a call was refused: a variant for each of the numbers 1 to 14.
#[derive(Clone, Copy, Debug, PartialEq, Eq)]
pub enum Refusal {
    // The length of the rows.
    BadSize(usize),
    ShortLoan(Loan),
    // The beta and the dart of the first image that breaks a rule.
    NotAMap(u32, u32),
    // Which dart argument.
    BadDart(u32),
    // The beta number.
    BadBeta(u32),
    // The beta, and the darts on the left and on the right.
    NonFreeBase(u32, u32, u32),
    NonFreeImage(u32, u32, u32),
    // The beta and the dart.
    AlreadyFree(u32, u32),
    // The darts on the left and on the right.
    AsymmetricalFaces(u32, u32),
    // The beta, and the darts on the left and on the right.
    BadGeometry(u32, u32, u32),
    // The entries needed.
    PlanRoom(usize),
    // The word or the block of the image.
    BadImage(u32),
    // The operation of a command that is none; 0 of a list that is no whole commands.
    BadCommand(u32),
    // The bytes needed.
    ImageRoom(usize),
}

// What a done call says: the dart or the yes (1) or no (0) that is answered, then the count written; 0 where there is none.
#[derive(Clone, Copy, Debug, PartialEq, Eq)]
pub struct Done {
    pub value: u32,
    pub count: usize,
}

impl Done {
    // Done, with nothing to say.
    pub const NOTHING: Done = Done { value: 0, count: 0 };
}

// What a call answers.
pub type Answer = Result<Done, Refusal>;

// An answer as numbers: what crosses to C and to Rust.
#[derive(Clone, Copy, Debug, PartialEq, Eq)]
pub struct Told {
    pub number: u32,
    pub first: u64,
    pub second: u64,
    pub third: u64,
}

fn numbers(number: u32, first: u64, second: u64, third: u64) -> Told
    ensures { result ≡ told_of number first second third }
{
    Told {
        number,
        first,
        second,
        third,
    }
}

// A refusal's number and values.
impl From<Refusal> for Told {
    ghost from_gives = { λ refusal told. told ≡ refusal_of refusal };

    fn from(refusal: Refusal) -> Told {
        match refusal {
            Refusal::BadSize(k) => numbers(1, k as u64, 0, 0),
            Refusal::ShortLoan(loan) => numbers(2, u64::from(loan), 0, 0),
            Refusal::NotAMap(i, d) => numbers(3, u64::from(i), u64::from(d), 0),
            Refusal::BadDart(k) => numbers(4, u64::from(k), 0, 0),
            Refusal::BadBeta(i) => numbers(5, u64::from(i), 0, 0),
            Refusal::NonFreeBase(i, l, r) => numbers(6, u64::from(i), u64::from(l), u64::from(r)),
            Refusal::NonFreeImage(i, l, r) => numbers(7, u64::from(i), u64::from(l), u64::from(r)),
            Refusal::AlreadyFree(i, d) => numbers(8, u64::from(i), u64::from(d), 0),
            Refusal::AsymmetricalFaces(l, r) => numbers(9, u64::from(l), u64::from(r), 0),
            Refusal::BadGeometry(i, l, r) => numbers(10, u64::from(i), u64::from(l), u64::from(r)),
            Refusal::PlanRoom(k) => numbers(11, k as u64, 0, 0),
            Refusal::BadImage(k) => numbers(12, u64::from(k), 0, 0),
            Refusal::BadCommand(k) => numbers(13, u64::from(k), 0, 0),
            Refusal::ImageRoom(k) => numbers(14, k as u64, 0, 0),
        }
    }
}

// An answer's number and values.
impl From<Answer> for Told {
    ghost from_gives = { λ answer told. told ≡ tell_of answer };

    fn from(answer: Answer) -> Told {
        match answer {
            Ok(done) => numbers(0, u64::from(done.value), done.count as u64, 0),
            Err(refusal) => Told::from(refusal),
        }
    }
}
