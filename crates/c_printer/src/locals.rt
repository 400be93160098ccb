//! The names of locals.

ghost use Rattle.std.specs.Prelude.{◌≡◌, ◌≤◌, length};
ghost use Rattle.c_printer.specs.Names.{claim_names, operation_names, names_of};
ghost use Rattle.c_printer.specs.Words.{local_name};

/// A function's table of names: a local's number is its place in the table.
#[derive(Clone, Copy)]
pub enum Table {
    /// That of claims.
    Claims,
    /// That of operations.
    Operations,
}

/// How many names a table has.
pub fn local_count(table: Table) -> u32
    ensures { result ≡ length (names_of table) }
{
    match table {
        Table::Claims => 13,
        Table::Operations => 49,
    }
}

fn claim_local(d: u32) -> &'static [u8]
    ensures { result.now ≡ local_name claim_names d }
{
    match d {
        0 => b"sweeps",
        1 => b"top",
        2 => b"slot",
        3 => b"other",
        4 => b"found",
        5 => b"word",
        6 => b"bound",
        7 => b"each",
        8 => b"number",
        9 => b"state",
        10 => b"old",
        11 => b"phase",
        12 => b"kind",
        _ => b"",
    }
}

/// What the registers held at the start of the wrap-up.
fn kept_local(d: u32) -> &'static [u8]
    requires { 33 ≤ d }
    ensures { result.now ≡ local_name operation_names d }
{
    match d {
        33 => b"keptn0",
        34 => b"keptn1",
        35 => b"keptn2",
        36 => b"keptn3",
        37 => b"keptn4",
        38 => b"keptn5",
        39 => b"keptn6",
        40 => b"keptn7",
        41 => b"keptr0",
        42 => b"keptr1",
        43 => b"keptr2",
        44 => b"keptr3",
        45 => b"keptr4",
        46 => b"keptr5",
        47 => b"keptr6",
        48 => b"keptr7",
        _ => b"",
    }
}

/// What an operation knows of itself.
fn own_local(d: u32) -> &'static [u8]
    requires { 20 ≤ d }
    ensures { result.now ≡ local_name operation_names d }
{
    match d {
        20 => b"seen",
        21 => b"h0",
        22 => b"h1",
        23 => b"h2",
        24 => b"h3",
        25 => b"h4",
        26 => b"h5",
        27 => b"h6",
        28 => b"h7",
        29 => b"found",
        30 => b"slot",
        31 => b"word",
        32 => b"made",
        _ => kept_local(d),
    }
}

/// The registers and the arguments.
fn operation_local(d: u32) -> &'static [u8]
    ensures { result.now ≡ local_name operation_names d }
{
    match d {
        0 => b"n0",
        1 => b"n1",
        2 => b"n2",
        3 => b"n3",
        4 => b"n4",
        5 => b"n5",
        6 => b"n6",
        7 => b"n7",
        8 => b"r0",
        9 => b"r1",
        10 => b"r2",
        11 => b"r3",
        12 => b"r4",
        13 => b"r5",
        14 => b"r6",
        15 => b"r7",
        16 => b"a0",
        17 => b"a1",
        18 => b"a2",
        19 => b"a3",
        _ => own_local(d),
    }
}

/// The name of a local; no bytes past the end of the table.
pub fn local_name(table: Table, d: u32) -> &'static [u8]
    ensures { result.now ≡ local_name (names_of table) d }
{
    match table {
        Table::Claims => claim_local(d),
        Table::Operations => operation_local(d),
    }
}
