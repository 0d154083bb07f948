//! Tests of how many objects trees make.

// Rows "BOUND OBJECTS TEXT@TREE": under this bound on loops and activations the tree has so many objects, the static ones and the
// strings counted. The C text is what the tree stands for. Where it has too many places, no object is counted.

ghost use Rattle.std.specs.Prelude.{◌≡◌, IfOk};

use crate::row_tests::admitted;
use core_tree::{Bounds, LoopBound, Name};
use goto_unwind::count;
use std::alloc::{AllocError, Global};
use std::test::*;
use tree_notation::Unread;

const OBJECTS: &str = "\
1 0@int main(void){return 0;}@int:main { 0 return } end
1 1@int main(void){malloc(1);}@int:main { 1ul malloc ; } end
1 1@int main(void){calloc(3,1);}@int:main { 3ul 1ul calloc ; } end
1 3@char *s=\"ab\";int main(void){malloc(1);}@object:8 at:0/s0/0 string:ab int:main { 1ul malloc ; } end
1 1@int main(void){int x,y;&x;}@int:main x:4& y:4 { x! y! } end
1 2@int main(void){{int x;&x;}{int y=1;&y;}}@int:main x:4& y:4& { { x! } { 1 y:= } } end
4 3@int main(void){while(1)malloc(1);}@int:main { { 1ul malloc ; } 1 while } end
1 0@int main(void){while(1)malloc(1);}@int:main { { 1ul malloc ; } 1 while } end
4 4@int main(void){while((long)malloc(1));}@int:main { { } 1ul malloc 0ul == while } end
4 4@int main(void){do malloc(1);while(1);}@int:main { { 1ul malloc ; } 1 do } end
4 3@int main(void){for(;1;malloc(1));}@int:main { { } 1 1ul malloc for } end
8 2@int f(int a){return *&a;}int main(void){return f(1)+f(2);}@int:f (a:int)& { a & * int return } end int:main { 1 f() 2 f() + return } end
3 3@void f(void){int x;&x;f();}int main(void){f();}@void:f x:4& { x! f() ; } end int:main { f() ; } end
90 7921@int main(void){while(1){while(1)malloc(1);}}@int:main { { { 1ul malloc ; } 1 while } 1 while } end
92 8193@int main(void){while(1){while(1)malloc(1);}}@int:main { { { 1ul malloc ; } 1 while } 1 while } end
1000 0@int main(void){while(1){while(1)malloc(1);}}@int:main { { { 1ul malloc ; } 1 while } 1 while } end";

// How many objects a tree makes under these bounds.
fn objects(alloc: Global, tree: &str, bounds: &Bounds) -> Result<u32, Unread> {
    let file = admitted(alloc, tree)?;
    Ok(count(alloc, &file, bounds)?.objects)
}

fn number(text: &str) -> Result<u32, Unread> {
    text.parse::<u32>().ok().ok_or(Unread::Word)
}

fn holds(alloc: Global, row: &str) -> Result<bool, Unread> {
    let (head, rest) = row.split_once('@').unwrap_or((row, ""));
    let (_, tree) = rest.split_once('@').unwrap_or(("", rest));
    let (bound, wanted) = head.split_once(' ').unwrap_or(("", ""));
    let bound = number(bound)?;
    if bound == 0 || bound > 1_000 {
        return Err(Unread::Word);
    }
    let bounds = Bounds::new(bound, Vec::new(alloc), true, 1, false);
    Ok(objects(alloc, tree, &bounds)? == number(wanted)?)
}

// The rows that count other objects, or that can't be read.
fn wrong_rows(alloc: Global, rows: &str) -> Result<String, AllocError> {
    let mut wrong = String::new(alloc);
    for row in rows.lines() {
        if let Ok(true) = holds(alloc, row) {
            continue;
        }
        wrong.push_str(row)?;
        wrong.push_str("\n")?;
    }
    Ok(wrong)
}

#[test]
fn trees_make_their_objects(rt: HostRuntime) -> Result<(), Fail> {
    let wrong = wrong_rows(rt.alloc(), OBJECTS)?;
    assert_eq!(rt; wrong.as_str(), "");
    Ok(())
}

// The bound of the loop of `main` with this number.
fn loop_bound(alloc: Global, number: u64, unwind: u32) -> Result<LoopBound, AllocError>
    ensures { IfOk result (λ b. b.unwind ≡ unwind) }
{
    let function = Name {
        bytes: Vec::from_slice(alloc, b"main")?,
    };
    Ok(LoopBound {
        function,
        number,
        unwind,
    })
}

// The bounds 65 of the outer and 129 of the inner one of two loops of `main`.
fn fitting_bounds(alloc: Global) -> Result<Bounds, AllocError> {
    let set = vec![in alloc; loop_bound(alloc, 1, 65)?, loop_bound(alloc, 0, 129)?]?;
    Ok(Bounds::new(1, set, true, 1, false))
}

// The same with one round more.
fn passing_bounds(alloc: Global) -> Result<Bounds, AllocError> {
    let set = vec![in alloc; loop_bound(alloc, 1, 65)?, loop_bound(alloc, 0, 130)?]?;
    Ok(Bounds::new(1, set, true, 1, false))
}

// 64 rounds of 128, and of 129.
#[test]
fn objects_are_exact_at_their_limit(rt: HostRuntime) -> Result<(), Fail> {
    let alloc = rt.alloc();
    let tree = "int:main { { { 1ul malloc ; } 1 while } 1 while } end";
    let Ok(fitting) = objects(alloc, tree, &fitting_bounds(alloc)?) else {
        return Err(Fail::from("no tree"));
    };
    let Ok(passing) = objects(alloc, tree, &passing_bounds(alloc)?) else {
        return Err(Fail::from("no tree"));
    };
    assert_eq!(rt; [fitting, passing], [8_192, 8_193]);
    Ok(())
}
