// Links and unlinks.
ghost use Rattle.std.specs.Prelude.{◌≡◌};
ghost use Rattle.link_walk.specs.Calls.{one_link, two_link, three_link, one_unlink, two_unlink, three_unlink};
ghost use Rattle.map_betas.specs.Flat.{crossing, crossed};

// Links ld and rd by beta 1.
#[unsafe(no_mangle)]
pub extern "C" fn inkcapper_one_link(
    rows: &mut [u32],
    flags: &[u8],
    ld: u32,
    rd: u32,
    values: &mut [u64; 3],
) -> u32
    ensures { crossing result values.new rows.new ≡ crossed (one_link rows.old flags.now ld rd) }
{
    inkcapper_flat::links::inkcapper_one_link(rows, flags, ld, rd, values)
}

// Links ld and rd by beta 2.
#[unsafe(no_mangle)]
pub extern "C" fn inkcapper_two_link(
    rows: &mut [u32],
    flags: &[u8],
    ld: u32,
    rd: u32,
    values: &mut [u64; 3],
) -> u32
    ensures { crossing result values.new rows.new ≡ crossed (two_link rows.old flags.now ld rd) }
{
    inkcapper_flat::links::inkcapper_two_link(rows, flags, ld, rd, values)
}

// Links the faces of ld and rd by beta 3, pair by pair.
#[unsafe(no_mangle)]
pub extern "C" fn inkcapper_three_link(
    rows: &mut [u32],
    flags: &[u8],
    ld: u32,
    rd: u32,
    values: &mut [u64; 3],
) -> u32
    ensures { crossing result values.new rows.new ≡ crossed (three_link rows.old flags.now ld rd) }
{
    inkcapper_flat::links::inkcapper_three_link(rows, flags, ld, rd, values)
}

// Unlinks ld and its image by beta 1, which is answered.
#[unsafe(no_mangle)]
pub extern "C" fn inkcapper_one_unlink(
    rows: &mut [u32],
    flags: &[u8],
    ld: u32,
    values: &mut [u64; 3],
) -> u32
    ensures { crossing result values.new rows.new ≡ crossed (one_unlink rows.old flags.now ld) }
{
    inkcapper_flat::links::inkcapper_one_unlink(rows, flags, ld, values)
}

// Unlinks ld and its image by beta 2, which is answered.
#[unsafe(no_mangle)]
pub extern "C" fn inkcapper_two_unlink(
    rows: &mut [u32],
    flags: &[u8],
    ld: u32,
    values: &mut [u64; 3],
) -> u32
    ensures { crossing result values.new rows.new ≡ crossed (two_unlink rows.old flags.now ld) }
{
    inkcapper_flat::links::inkcapper_two_unlink(rows, flags, ld, values)
}

// Unlinks the faces of ld and its image by beta 3, which is answered, pair by pair.
#[unsafe(no_mangle)]
pub extern "C" fn inkcapper_three_unlink(
    rows: &mut [u32],
    flags: &[u8],
    ld: u32,
    values: &mut [u64; 3],
) -> u32
    ensures { crossing result values.new rows.new ≡ crossed (three_unlink rows.old flags.now ld) }
{
    inkcapper_flat::links::inkcapper_three_unlink(rows, flags, ld, values)
}
