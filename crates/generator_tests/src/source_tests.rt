use std::alloc::{AllocError, Global};
use std::test::Fail;
use tp_gen::{Texts, generate};
use tp_lexer::Text;

/// A text of the sources: the seed, the number of units, the place of the text, the name of its file, and what it is.
type Row = (u32, u16, usize, &'static str, &'static str);

// A unit that uses two others.
const TWO_OTHERS: &str = "{$F+,O+} unit G1;
interface
function F1(n: Integer): Integer;
implementation
uses G7, G3;
function F1(n: Integer): Integer;
begin
if n <= 0 then F1 := 46
else F1 := F7(n - 1) + F3(n - 2) * 95
end;
end.
";

// A unit that calls one other twice.
const ONE_OTHER: &str = "{$F+,O+} unit G8;
interface
function F8(n: Integer): Integer;
implementation
uses G7;
function F8(n: Integer): Integer;
begin
if n <= 0 then F8 := 165
else F8 := F7(n - 1) + F7(n - 2) * 47
end;
end.
";

// A unit between the two that it uses; the greatest seed.
const BETWEEN: &str = "{$F+,O+} unit G2;
interface
function F2(n: Integer): Integer;
implementation
uses G1, G3;
function F2(n: Integer): Integer;
begin
if n <= 0 then F2 := 440
else F2 := F1(n - 2) + F3(n - 3) * 74
end;
end.
";

// The last of the most units; the least seed.
const LAST_OF_ALL: &str = "{$F+,O+} unit G64;
interface
function F64(n: Integer): Integer;
implementation
uses G42, G20;
function F64(n: Integer): Integer;
begin
if n <= 0 then F64 := 600
else F64 := F42(n - 1) + F20(n - 2) * 60
end;
end.
";

const PROGRAM: &str = "{$F+} program Gen;
uses Overlay, G1, G2, G3, G4, G5, G6, G7, G8;
{$O G1}
{$O G2}
{$O G3}
{$O G4}
{$O G5}
{$O G6}
{$O G7}
{$O G8}
var i: Integer;
begin
OvrInit('GEN.OVR');
for i := 1 to 3 do WriteLn(i, ' ', F6(13))
end.
";

const SMALLEST: &str = "{$F+} program Gen;
uses Overlay, G1, G2;
{$O G1}
{$O G2}
var i: Integer;
begin
OvrInit('GEN.OVR');
for i := 1 to 3 do WriteLn(i, ' ', F2(12))
end.
";

const ROWS: [Row; 6] = [
    (1, 8, 0, "gen.pas", PROGRAM),
    (1, 8, 1, "g1.pas", TWO_OTHERS),
    (1, 8, 8, "g8.pas", ONE_OTHER),
    (5, 2, 0, "gen.pas", SMALLEST),
    (4_294_967_295, 3, 2, "g2.pas", BETWEEN),
    (0, 64, 64, "g64.pas", LAST_OF_ALL),
];

fn is(text: &Text, name: &str, bytes: &str) -> bool {
    text.name.as_str() == name && text.bytes.as_slice() == bytes.as_bytes()
}

/// The sources for a number of units that there may be.
fn sources(alloc: Global, seed: u32, units: u16) -> Result<Texts, AllocError> {
    if 2 <= units && units <= 64 {
        generate(alloc, seed, units)
    } else {
        Ok(Texts::new(alloc))
    }
}

fn holds(alloc: Global, row: &Row) -> Result<bool, AllocError> {
    let (seed, units, place, name, bytes) = *row;
    let texts = sources(alloc, seed, units)?;
    Ok(
        texts.len() == usize::from(units) + 1
            && texts
                .as_slice()
                .get(place)
                .is_some_and(|text| is(text, name, bytes)),
    )
}

#[test]
fn sources_are_as_written(rt: HostRuntime) -> Result<(), Fail> {
    for row in &ROWS {
        assert!(rt; holds(rt.alloc(), row)?, "{}", row.3);
    }
    Ok(())
}
