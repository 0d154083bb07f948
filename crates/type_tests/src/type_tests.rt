//! Tests of types, their sizes and their layouts.

// Widths, layouts and cells of types.

use c_types::{
    Incomplete, IntegerType, LayoutError, Layouts, MOST_BYTES, RecordKind, Ty, align_of, cells,
    common, is_sized, promote, same, size_of,
};
use std::alloc::{AllocError, Global};
use std::test::*;

/// Two types, and their common type.
static COMMON: [[IntegerType; 3]; 7] = [
    [IntegerType::Bool, IntegerType::Char, IntegerType::Int],
    [
        IntegerType::UnsignedShort,
        IntegerType::Short,
        IntegerType::Int,
    ],
    [
        IntegerType::Int,
        IntegerType::UnsignedInt,
        IntegerType::UnsignedInt,
    ],
    [
        IntegerType::UnsignedInt,
        IntegerType::Long,
        IntegerType::Long,
    ],
    [
        IntegerType::UnsignedLong,
        IntegerType::LongLong,
        IntegerType::UnsignedLongLong,
    ],
    [
        IntegerType::Long,
        IntegerType::LongLong,
        IntegerType::LongLong,
    ],
    [
        IntegerType::UnsignedLong,
        IntegerType::Int,
        IntegerType::UnsignedLong,
    ],
];

/// The first row whose types, in one order or the other, have another common type.
fn wrong_common(rows: &[[IntegerType; 3]]) -> Option<usize> {
    for (i, [a, b, result]) in rows.iter().enumerate() {
        if common(*a, *b) != *result || common(*b, *a) != *result {
            return Some(i);
        }
    }
    None
}

#[test]
fn widths_and_common_types(rt: HostRuntime) -> Result<(), Fail> {
    let int = IntegerType::Int;
    let unsigned = IntegerType::UnsignedInt;
    let long = IntegerType::Long;
    assert_eq!(rt; wrong_common(&COMMON), None);
    assert!(rt; promote(IntegerType::UnsignedChar) == int);
    assert!(rt; promote(unsigned) == unsigned);
    assert!(rt; int.size() == 4 && long.size() == 8 && IntegerType::Bool.size() == 1);
    assert!(rt; int.width() == 32 && long.width() == 64 && long.is_signed());
    Ok(())
}

const CHAR: Ty = Ty::Integer(IntegerType::Char);

const SHORT: Ty = Ty::Integer(IntegerType::Short);

const INT: Ty = Ty::Integer(IntegerType::Int);

const LONG: Ty = Ty::Integer(IntegerType::Long);

const BOOL: Ty = Ty::Integer(IntegerType::Bool);

/// Declares and completes a struct or union, and gives its place.
fn completed(
    alloc: Global,
    layouts: &mut Layouts,
    kind: RecordKind,
    members: Vec<Ty>,
) -> Result<u32, LayoutError> {
    if layouts.len() >= 100 {
        return Err(LayoutError::TooLarge);
    }
    let place = layouts.declare(kind)?;
    if layouts.is_completed(place) {
        return Err(LayoutError::TooLarge);
    }
    layouts.complete(alloc, place, members)?;
    Ok(place)
}

/// The size, the alignment and the offsets of a record.
fn shown(alloc: Global, layouts: &Layouts, place: u32) -> Result<String, AllocError> {
    format!(in alloc;
        "{} {} {:?}",
        layouts.record_size(place),
        layouts.record_alignment(place),
        layouts.offsets(place)
    )
}

/// The first row whose record has another layout.
fn wrong_layout(
    alloc: Global,
    layouts: &Layouts,
    rows: &[(u32, &str)],
) -> Result<Option<usize>, AllocError> {
    for (i, (place, text)) in rows.iter().enumerate() {
        if shown(alloc, layouts, *place)?.as_str() != *text {
            return Ok(Some(i));
        }
    }
    Ok(None)
}

fn structure(alloc: Global, layouts: &mut Layouts, members: Vec<Ty>) -> Result<u32, LayoutError> {
    completed(alloc, layouts, RecordKind::Struct, members)
}

fn union_of(alloc: Global, layouts: &mut Layouts, members: Vec<Ty>) -> Result<u32, LayoutError> {
    completed(alloc, layouts, RecordKind::Union, members)
}

/// Records of integers: a struct, a union, and a small struct.
fn records_of_integers(alloc: Global, all: &mut Layouts) -> Result<[u32; 3], Fail> {
    // struct { char a; long b; short c; }
    let long = structure(alloc, all, vec![in alloc; CHAR, LONG, SHORT]?)?;
    // union { int i; short h; }
    let word = union_of(alloc, all, vec![in alloc; INT, SHORT]?)?;
    // struct { _Bool a; short b; char c; }
    let small = structure(alloc, all, vec![in alloc; BOOL, SHORT, CHAR]?)?;
    Ok([long, word, small])
}

/// A struct with the record within it, and a union with an array.
fn records_of_more(alloc: Global, all: &mut Layouts, long: u32) -> Result<[u32; 2], Fail> {
    // struct { struct long inner; char d; }
    let outer = structure(alloc, all, vec![in alloc; Ty::Record(long), CHAR]?)?;
    // union { char c[9]; int i; }
    let text = Ty::array(alloc, CHAR, 9, all)?;
    let bytes = union_of(alloc, all, vec![in alloc; text, INT]?)?;
    Ok([outer, bytes])
}

/// A struct with an array of the small one, and one with the union and an array.
fn records_of_records(
    alloc: Global,
    all: &mut Layouts,
    small: u32,
    word: u32,
) -> Result<[u32; 2], Fail> {
    // struct { struct small rows[3]; int n; }
    let rows = Ty::array(alloc, Ty::Record(small), 3, all)?;
    let table = structure(alloc, all, vec![in alloc; rows, INT]?)?;
    // struct { char a; union word u; short h[3]; }
    let halves = Ty::array(alloc, SHORT, 3, all)?;
    let mixed = structure(alloc, all, vec![in alloc; CHAR, Ty::Record(word), halves]?)?;
    Ok([table, mixed])
}

#[test]
fn layouts_are_those_of_a_c_compiler(rt: HostRuntime) -> Result<(), Fail> {
    let alloc = rt.alloc();
    let mut all = Layouts::new(alloc);
    let [long, word, small] = records_of_integers(alloc, &mut all)?;
    let [outer, bytes] = records_of_more(alloc, &mut all, long)?;
    let [table, mixed] = records_of_records(alloc, &mut all, small, word)?;
    let expected = [
        (long, "24 8 [0, 8, 16]"),
        (word, "4 4 [0, 0]"),
        (small, "6 2 [0, 2, 4]"),
        (outer, "32 8 [0, 24]"),
        (bytes, "12 4 [0, 0]"),
        (table, "24 4 [0, 20]"),
        (mixed, "16 4 [0, 4, 8]"),
    ];
    assert_eq!(rt; wrong_layout(alloc, &all, &expected)?, None);
    Ok(())
}

/// The cells of a type, as "offset:size" each.
fn listed(alloc: Global, type_: &Ty, layouts: &Layouts) -> Result<String, AllocError> {
    if !is_sized(type_, layouts) {
        return format!(in alloc; "too large");
    }
    let mut text = format!(in alloc; "")?;
    for cell in &cells(alloc, type_, layouts)? {
        let more = format!(in alloc; "{}:{} ", cell.offset, cell.size)?;
        text.push_str(&more)?;
    }
    Ok(text)
}

/// The first row whose type has other cells.
fn wrong_cells(
    alloc: Global,
    layouts: &Layouts,
    rows: &[(Ty, &str)],
) -> Result<Option<usize>, AllocError> {
    for (i, (type_, text)) in rows.iter().enumerate() {
        if listed(alloc, type_, layouts)?.as_str() != *text {
            return Ok(Some(i));
        }
    }
    Ok(None)
}

#[test]
fn cells_of_structs_and_unions(rt: HostRuntime) -> Result<(), Fail> {
    let alloc = rt.alloc();
    let mut all = Layouts::new(alloc);
    // struct { int x; char y; }
    let pair = structure(alloc, &mut all, vec![in alloc; INT, CHAR]?)?;
    // union { char a; struct pair s; long l; }: the first of the two greatest members is the second
    let second = union_of(
        alloc,
        &mut all,
        vec![in alloc; CHAR, Ty::Record(pair), LONG]?,
    )?;
    // union { int i; char c[5]; }, whose size is 8
    let text = Ty::array(alloc, CHAR, 5, &all)?;
    let first = union_of(alloc, &mut all, vec![in alloc; INT, text]?)?;
    let expected = [
        (Ty::Void, ""),
        (LONG, "0:8 "),
        (Ty::Record(pair), "0:4 4:1 "),
        (Ty::Record(second), "0:4 4:1 "),
        (Ty::Record(first), "0:1 1:1 2:1 3:1 4:1 "),
    ];
    assert_eq!(rt; wrong_cells(alloc, &all, &expected)?, None);
    Ok(())
}

#[test]
fn cells_of_arrays(rt: HostRuntime) -> Result<(), Fail> {
    let alloc = rt.alloc();
    let mut all = Layouts::new(alloc);
    // struct { _Bool a; short b; char c; }
    let small = structure(alloc, &mut all, vec![in alloc; BOOL, SHORT, CHAR]?)?;
    // struct { struct small rows[3]; int n; }
    let rows = Ty::array(alloc, Ty::Record(small), 3, &all)?;
    let table = structure(alloc, &mut all, vec![in alloc; rows, INT]?)?;
    let halves = Ty::array(alloc, SHORT, 2, &all)?;
    let grid = Ty::array(alloc, halves, 2, &all)?;
    let one = Ty::array(alloc, Ty::Record(small), 1, &all)?;
    let expected = [
        (
            Ty::Record(table),
            "0:1 2:2 4:1 6:1 8:2 10:1 12:1 14:2 16:1 20:4 ",
        ),
        (grid, "0:2 2:2 4:2 6:2 "),
        (one, "0:1 2:2 4:1 "),
    ];
    assert_eq!(rt; wrong_cells(alloc, &all, &expected)?, None);
    Ok(())
}

/// The size of a type, where it is sized and complete.
fn sized(type_: &Ty, layouts: &Layouts) -> Option<u32> {
    if is_sized(type_, layouts) {
        size_of(type_, layouts).ok()
    } else {
        None
    }
}

#[test]
fn refusals_change_nothing(rt: HostRuntime) -> Result<(), Fail> {
    let alloc = rt.alloc();
    let mut all = Layouts::new(alloc);
    let open = all.declare(RecordKind::Union)?;
    assert!(rt; sized(&Ty::Record(open), &all).is_none());
    assert!(rt; align_of(&Ty::Void, &all) == Err(Incomplete));
    for member in [Ty::Void, Ty::Record(open), Ty::Record(7)] {
        let refused = structure(alloc, &mut all, vec![in alloc; INT, member]?);
        assert!(rt; refused == Err(LayoutError::Incomplete));
    }
    assert!(rt; all.len() == 4 && !all.is_completed(3));
    let most = Ty::array(alloc, CHAR, MOST_BYTES, &all)?;
    assert!(rt; sized(&most, &all) == Some(MOST_BYTES));
    let again = most.copied()?;
    assert!(rt; same(&most, &again) && !same(&most, &CHAR));
    let refused = union_of(alloc, &mut all, vec![in alloc; SHORT, most]?);
    assert!(rt; refused == Err(LayoutError::TooLarge));
    let refused = structure(alloc, &mut all, vec![in alloc; CHAR, again]?);
    assert!(rt; refused == Err(LayoutError::TooLarge));
    assert!(rt; Ty::array(alloc, INT, 0, &all).err() == Some(LayoutError::NoElements));
    assert!(rt; Ty::array(alloc, Ty::Void, 1, &all).err() == Some(LayoutError::Incomplete));
    assert!(rt; Ty::array(alloc, LONG, 268435456, &all).err() == Some(LayoutError::TooLarge));
    Ok(())
}

#[test]
fn nested_structs_double_until_too_large(rt: HostRuntime) -> Result<(), Fail> {
    let alloc = rt.alloc();
    let mut all = Layouts::new(alloc);
    let mut place = structure(alloc, &mut all, vec![in alloc; CHAR]?)?;
    for _level in 0..30 {
        let members = vec![in alloc; Ty::Record(place), Ty::Record(place)]?;
        place = structure(alloc, &mut all, members)?;
    }
    assert!(rt; sized(&Ty::Record(place), &all) == Some(1073741824));
    assert!(rt; align_of(&Ty::Record(place), &all) == Ok(1));
    let members = vec![in alloc; Ty::Record(place), Ty::Record(place)]?;
    assert!(rt; structure(alloc, &mut all, members) == Err(LayoutError::TooLarge));
    Ok(())
}

#[test]
fn members_of_more_types(rt: HostRuntime) -> Result<(), Fail> {
    let alloc = rt.alloc();
    let mut all = Layouts::new(alloc);
    let byte = Ty::Integer(IntegerType::UnsignedChar);
    let wide = Ty::Integer(IntegerType::UnsignedLong);
    let word = Ty::Integer(IntegerType::UnsignedInt);
    // struct { unsigned char a; _Bool b; long c; char d; short e; unsigned long f; unsigned g; }
    let members = vec![in alloc; byte, BOOL, LONG, CHAR, SHORT, wide, word]?;
    let many = structure(alloc, &mut all, members)?;
    assert!(rt; shown(alloc, &all, many)?.as_str() == "40 8 [0, 1, 8, 16, 18, 24, 32]");
    // struct { struct { int x; char y; } grid[2][3]; union { char c[9]; int i; } last; }
    let pair = structure(alloc, &mut all, vec![in alloc; INT, CHAR]?)?;
    let row = Ty::array(alloc, Ty::Record(pair), 3, &all)?;
    let grid = Ty::array(alloc, row, 2, &all)?;
    let text = Ty::array(alloc, CHAR, 9, &all)?;
    let last = union_of(alloc, &mut all, vec![in alloc; text, INT]?)?;
    let whole = structure(alloc, &mut all, vec![in alloc; grid, Ty::Record(last)]?)?;
    assert!(rt; shown(alloc, &all, whole)?.as_str() == "60 4 [0, 48]");
    assert!(rt; (whole as usize) < all.len());
    assert!(rt; all.kind(whole) == RecordKind::Struct);
    let members = all.members(whole);
    assert!(rt; members.len() == 2);
    let (type_, offset) = all.member(whole, 1);
    assert!(rt; same(type_, &Ty::Record(last)) && offset == 48);
    Ok(())
}

/// The second struct, with a pointer to itself, which isn't complete yet, and an array of pointers to const char.
fn linked(alloc: Global, layouts: &mut Layouts) -> Result<u32, Fail> {
    let next = Ty::pointer(alloc, Ty::Record(1), false)?;
    let text = Ty::pointer(alloc, CHAR, true)?;
    let texts = Ty::array(alloc, text, 2, layouts)?;
    let made = structure(alloc, layouts, vec![in alloc; CHAR, next, texts]?)?;
    Ok(made)
}

#[test]
fn pointers_are_words(rt: HostRuntime) -> Result<(), Fail> {
    let alloc = rt.alloc();
    let mut all = Layouts::new(alloc);
    let open = all.declare(RecordKind::Struct)?;
    let node = linked(alloc, &mut all)?;
    assert!(rt; node == 1);
    let expected = [(node, "32 8 [0, 8, 16]")];
    assert_eq!(rt; wrong_layout(alloc, &all, &expected)?, None);
    let nothing = Ty::pointer(alloc, Ty::Void, false)?;
    let hidden = Ty::pointer(alloc, Ty::Record(open), false)?;
    let called = Ty::pointer(alloc, Ty::Function(0), false)?;
    let rows = [
        (Ty::Record(node), "0:1 8:8 16:8 24:8 "),
        (nothing, "0:8 "),
        (hidden, "0:8 "),
        (called, "0:8 "),
        (Ty::Function(0), ""),
    ];
    assert_eq!(rt; wrong_cells(alloc, &all, &rows)?, None);
    assert!(rt; sized(&Ty::Function(0), &all).is_none());
    Ok(())
}

#[test]
fn pointers_are_one_by_what_they_point_to(rt: HostRuntime) -> Result<(), Fail> {
    let alloc = rt.alloc();
    let free = Ty::pointer(alloc, INT, false)?;
    let fixed = Ty::pointer(alloc, INT, true)?;
    assert!(rt; same(&free, &free.copied()?) && !same(&free, &fixed) && !same(&free, &LONG));
    let outer = Ty::pointer(alloc, free, false)?;
    let other = Ty::pointer(alloc, fixed, false)?;
    assert!(rt; same(&outer, &outer.copied()?) && !same(&outer, &other));
    let called = Ty::pointer(alloc, Ty::Function(1), false)?;
    let again = Ty::pointer(alloc, Ty::Function(1), false)?;
    assert!(rt; same(&called, &again) && !same(&Ty::Function(1), &Ty::Function(2)));
    Ok(())
}
