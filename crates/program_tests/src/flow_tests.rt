//! Tests of jumps, loops and switches.

// Programs with functions, loops, switches and jumps: their runs on the machines of all stages, and their places.

use crate::machines::{admitted, admitted_with_homes, end_under, end_within};
use core_tree::{Bounds, LoopBound, Name};
use goto_unwind::count;
use interleave::Outcome;
use std::alloc::{AllocError, Global};
use std::test::*;
use words::{Check, Class};

// A text with the greatest number of tests of a loop and of activations of a function, the word that it
// draws, and the class, the line and the function of the check that breaks.
type Run = (&'static str, u32, i32, Option<(Class, u32, u32)>);

static RUNS: [Run; 44] = [
    (
        "int main(void){int i=0;while(i<3)i++;\nassert(i!=3);return 0;}",
        4,
        0,
        Some((Class::Assertion, 2, 0)),
    ),
    (
        "int main(void){int i=0;while(i<3)i++;\nassert(i==3);return 0;}",
        8,
        0,
        None,
    ),
    (
        "int main(void){int i=0;\nwhile(i<3)i++;\nassert(i!=3);return 0;}",
        3,
        0,
        Some((Class::Unwind, 2, 0)),
    ),
    (
        "int main(void){int i=0;\nwhile(i<3)i++;\nassert(i!=3);return 0;}",
        1,
        0,
        Some((Class::Unwind, 2, 0)),
    ),
    (
        "int main(void){int i=0,s=0;for(;;){i++;if(i==2)continue;if(i>3)break;s+=i;}\nassert(s!=4);return 0;}",
        8,
        0,
        Some((Class::Assertion, 2, 0)),
    ),
    (
        "int main(void){int i=0,s=0;for(;;){i++;if(i==2)continue;if(i>3)break;s+=i;}\nassert(s!=4);return 0;}",
        3,
        0,
        Some((Class::Unwind, 1, 0)),
    ),
    (
        "int main(void){int i=0;do i+=2;while(i<5);assert(i==6);return 0;}",
        3,
        0,
        None,
    ),
    (
        "int main(void){int i=0;do i+=2;while(i<5);assert(i==6);return 0;}",
        2,
        0,
        Some((Class::Unwind, 1, 0)),
    ),
    (
        "int main(void){int s=0;for(int i=0;i<3;i++)for(int j=0;j<2;j++)s+=i;assert(s==6);return 0;}",
        8,
        0,
        None,
    ),
    (
        "int main(void){int s=0;for(int i=0;i<3;i++)for(int j=0;j<2;j++)s+=i;assert(s==6);return 0;}",
        3,
        0,
        Some((Class::Unwind, 1, 0)),
    ),
    (
        "int main(void){int s=0;switch(nondet_int()){case 1:s=1;case 2:s+=2;break;default:s=9;}\nassert(s!=3);return 0;}",
        1,
        1,
        Some((Class::Assertion, 2, 0)),
    ),
    (
        "int main(void){int s=0;switch(nondet_int()){case 1:s=1;case 2:s+=2;break;default:s=9;}\nassert(s!=2);return 0;}",
        1,
        2,
        Some((Class::Assertion, 2, 0)),
    ),
    (
        "int main(void){int s=0;switch(nondet_int()){case 1:s=1;case 2:s+=2;break;default:s=9;}\nassert(s!=9);return 0;}",
        1,
        -5,
        Some((Class::Assertion, 2, 0)),
    ),
    (
        "int main(void){int s=0;switch(nondet_int()){case 1:s=1;case 2:s+=2;break;}\nassert(s!=0);return 0;}",
        1,
        7,
        Some((Class::Assertion, 2, 0)),
    ),
    (
        "int main(void){int i=0,j=0;for(;i<3;i++)for(j=0;j<3;j++)if(i+j==3)goto out;out:\nassert(i!=1||j!=2);return 0;}",
        4,
        0,
        Some((Class::Assertion, 2, 0)),
    ),
    (
        "int main(void){int x=nondet_int();if(x==4)goto done;\nassert(x!=5);done:return 0;}",
        1,
        4,
        None,
    ),
    (
        "int main(void){int x=nondet_int();if(x==4)goto done;\nassert(x!=5);done:return 0;}",
        1,
        5,
        Some((Class::Assertion, 2, 0)),
    ),
    (
        "int add(int a,int b){return a+b;}int main(void){\nassert(add(2,3)==6);return 0;}",
        1,
        0,
        Some((Class::Assertion, 2, 1)),
    ),
    (
        "int add(int a,int b){return a+b;}int main(void){assert(add(add(1,2),add(3,4))==10);return 0;}",
        1,
        0,
        None,
    ),
    (
        "int f(int n){if(n<2)return 1;\nreturn n*f(n-1);}int main(void){assert(f(4)==24);return 0;}",
        4,
        0,
        None,
    ),
    (
        "int f(int n){if(n<2)return 1;\nreturn n*f(n-1);}int main(void){assert(f(4)==24);return 0;}",
        3,
        0,
        Some((Class::Recursion, 2, 0)),
    ),
    (
        "int odd(int n);int even(int n){return n==0?1:odd(n-1);}int odd(int n){return n==0?0:even(n-1);}int main(void){assert(even(4));return 0;}",
        3,
        0,
        None,
    ),
    (
        "int odd(int n);int even(int n){return n==0?1:odd(n-1);}int odd(int n){\nreturn n==0?0:even(n-1);}int main(void){assert(even(4));return 0;}",
        2,
        0,
        Some((Class::Recursion, 2, 0)),
    ),
    (
        "int f(void){}int main(void){\nint x=f();return x;}",
        8,
        0,
        Some((Class::Return, 2, 1)),
    ),
    ("int f(void){}int main(void){f();return 0;}", 8, 0, None),
    (
        "struct s{int a;int b;};struct s swap(struct s x){struct s y={x.b,x.a};return y;}int main(void){struct s p={1,2};struct s q=swap(p);assert(q.a==2&&q.b==1&&p.a==1);return 0;}",
        1,
        0,
        None,
    ),
    (
        "int n;void up(void){n++;}int main(void){up();up();\nassert(n!=2);return 0;}",
        1,
        0,
        Some((Class::Assertion, 2, 1)),
    ),
    (
        "int f(int a){return a+1;}int main(void){return f(2147483647);}",
        1,
        0,
        Some((Class::Overflow, 1, 0)),
    ),
    (
        "int half(int a){return a/2;}int main(void){int x=nondet_int();int n=0;while(x>1){x=half(x);n++;}\nassert(n!=3);return 0;}",
        4,
        9,
        Some((Class::Assertion, 2, 1)),
    ),
    (
        "int half(int a){return a/2;}int main(void){int x=nondet_int();int n=0;while(x>1){x=half(x);n++;}\nassert(n!=3);return 0;}",
        3,
        9,
        Some((Class::Unwind, 1, 1)),
    ),
    (
        "int f(int a){a=a+1;return a;}int main(void){int a=5;assert(f(a)==6&&a==5);return 0;}",
        1,
        0,
        None,
    ),
    (
        "int f(unsigned char a){return a;}int main(void){assert(f(258)==2);return 0;}",
        1,
        0,
        None,
    ),
    (
        "unsigned char f(int a){return a;}int main(void){assert(f(258)==2);return 0;}",
        1,
        0,
        None,
    ),
    (
        "int main(void){int s=0;switch(2){int t=3;case 1:s=t;case 2:s+=4;}assert(s==4);return 0;}",
        2,
        0,
        None,
    ),
    (
        "int main(void){goto L;int x=1;L:\nassert(x!=7);return 0;}",
        1,
        7,
        Some((Class::Assertion, 2, 0)),
    ),
    (
        "int main(void){switch(2){case 1:;int t=3;case 2:\nassert(t!=7);}return 0;}",
        1,
        7,
        Some((Class::Assertion, 2, 0)),
    ),
    (
        "int main(void){unsigned char c=1;int s=0;switch(c){case 257:s=1;break;case 1:s=2;}assert(s==2);return 0;}",
        1,
        0,
        None,
    ),
    (
        "int main(void){unsigned x=-1;int s=0;switch(x){case 1:s=1;break;case -1:s=2;}assert(s==2);return 0;}",
        1,
        0,
        None,
    ),
    (
        "int f(int n){return f(n\n/0);}int main(void){return f(1);}",
        1,
        0,
        Some((Class::Division, 2, 0)),
    ),
    (
        "int f(int a,int b){return a-b;}int main(void){int x=9;assert(f(x=5,x)==0);return 0;}",
        1,
        0,
        None,
    ),
    (
        "int main(void){union{struct{long a,b;char c;};int w;}s;\nassert(!(s.w==7&&s.b==0&&s.c==0));return 0;}",
        1,
        7,
        Some((Class::Assertion, 2, 0)),
    ),
    (
        "int main(void){struct{short a;char b;}s;\nassert(!(s.a==513&&s.b==3));return 0;}",
        1,
        197121,
        Some((Class::Assertion, 2, 0)),
    ),
    (
        "const int c=1;int n;int f(void){return n++;}int main(void){assert(f()==0&&f()==c&&n==2);return 0;}",
        1,
        0,
        None,
    ),
    (
        "int main(void){int n=0;for(int i=0;i<2;i++){int x;if(i==0)continue;n=x;}\nassert(n!=7);return 0;}",
        3,
        7,
        None,
    ),
];

// How a run ends that breaks this check of a function, or none.
fn ending(check: Option<(Class, u32, u32)>) -> Outcome {
    match check {
        Some((class, line, function)) => Outcome::Broken(Check {
            class,
            line,
            function,
            thread: 0,
        }),
        None => Outcome::Fine,
    }
}

// The first row whose run ends otherwise.
fn wrong_run(alloc: Global, rows: &[Run]) -> Result<Option<usize>, Fail> {
    for (i, (text, unwind, word, check)) in rows.iter().enumerate() {
        if !end_within(
            alloc,
            text.as_bytes(),
            &[*word, 0, 0],
            *unwind,
            ending(*check),
        )? {
            return Ok(Some(i));
        }
    }
    Ok(None)
}

#[test]
fn programs_have_their_runs(rt: HostRuntime) -> Result<(), Fail> {
    assert_eq!(rt; wrong_run(rt.alloc(), &RUNS)?, None);
    Ok(())
}

// Texts with a bound and the places that they count, at most one more than 2,000,000: each node of the typed
// tree is one, a loop's body counts once less than its test, and a call counts the body that it may open.
static PLACES: [(&str, u32, u32); 20] = [
    ("int main(void){for(;;)1;}", 1, 3),
    ("int main(void){for(;;)1;}", 2, 6),
    ("int main(void){for(;;)1;}", 1_000, 3_000),
    ("int main(void){for(;;)for(;;)1;}", 3, 21),
    ("int main(void){for(;;)for(;;)1;}", 1_000, 2_000_001),
    ("int main(void){do 1;while(1);}", 3, 11),
    ("int main(void){do 1;while(1);}", 1_000, 3_002),
    ("int main(void){int x=1;int y;return x;}", 8, 7),
    ("int main(void){char c=1;return c;}", 8, 8),
    ("int main(void){int i=0;while(i<3)i++;return 0;}", 2, 17),
    ("int main(void){int i=0;while(i<3)i++;return 0;}", 8, 59),
    ("void f(void){1;}int main(void){f();f();}", 1, 11),
    ("void f(void){f();}int main(void){f();}", 1, 6),
    ("void f(void){f();}int main(void){f();}", 1_000, 3_003),
    ("void f(void){f();f();}int main(void){f();}", 2, 18),
    ("void f(void){f();f();}int main(void){f();}", 3, 38),
    (
        "void f(void){f();f();}int main(void){f();}",
        1_000,
        2_000_001,
    ),
    (
        "void g(void);void f(void){g();}void g(void){f();}int main(void){f();}",
        3,
        21,
    ),
    (
        "void g(void);void f(void){g();}void g(void){f();}int main(void){f();}",
        1_000,
        6_003,
    ),
    ("int main(void){switch(1){case 1:;default:break;}}", 8, 7),
];

// The places of a text.
fn places_of(alloc: Global, text: &str, unwind: u32) -> Result<u32, Fail> {
    if unwind == 0 || unwind > 1_000 {
        return Err(Fail::from("no bound"));
    }
    let bounds = Bounds::new(unwind, Vec::new(alloc), true, 1, false);
    let file = admitted(alloc, text.as_bytes())?;
    Ok(count(alloc, &file, &bounds)?.places)
}

// The first row that counts other places.
fn wrong_count(alloc: Global, rows: &[(&str, u32, u32)]) -> Result<Option<usize>, Fail> {
    for (i, (text, unwind, places)) in rows.iter().enumerate() {
        if places_of(alloc, text, *unwind)? != *places {
            return Ok(Some(i));
        }
    }
    Ok(None)
}

// Texts, bounds for loops and calls, and how many objects they make where each variable has an address, with their static ones.
const OBJECTS: [(&str, u32, u32); 10] = [
    ("int main(void){return 0;}", 1, 0),
    ("int x;int main(void){int y=1;return y;}", 1, 2),
    ("int main(void){{int x;}{int y;}return 0;}", 1, 2),
    (
        "int f(int a){int b=a;return b;}int main(void){return f(1)+f(2);}",
        1,
        4,
    ),
    (
        "int main(void){for(int i=0;i<2;i++){int y=i;}return 0;}",
        3,
        3,
    ),
    (
        "int main(void){for(int i=0;i<2;i++){int y=i;}return 0;}",
        1,
        1,
    ),
    ("int main(void){do{int y=1;}while(0);return 0;}", 2, 2),
    ("void f(int n){if(n)f(n-1);}int main(void){f(3);}", 3, 3),
    ("int main(void){switch(1){int z;case 1:;}return 0;}", 1, 1),
    (
        "void g(void){int a;int b;}void f(void){g();g();g();g();g();g();g();g();}void e(void){f();f();f();f();f();f();f();f();}int main(void){for(;;){e();}}",
        65,
        8_192,
    ),
];

// The objects of a text where each variable has an address.
fn objects_of(alloc: Global, text: &str, unwind: u32) -> Result<u32, Fail> {
    if unwind == 0 || unwind > 1_000 {
        return Err(Fail::from("no bound"));
    }
    let bounds = Bounds::new(unwind, Vec::new(alloc), true, 1, false);
    let file = admitted_with_homes(alloc, text.as_bytes(), 1)?;
    Ok(count(alloc, &file, &bounds)?.objects)
}

// The first row that counts other objects.
fn wrong_objects(alloc: Global, rows: &[(&str, u32, u32)]) -> Result<Option<usize>, Fail> {
    for (i, (text, unwind, objects)) in rows.iter().enumerate() {
        if objects_of(alloc, text, *unwind)? != *objects {
            return Ok(Some(i));
        }
    }
    Ok(None)
}

#[test]
fn objects_are_counted(rt: HostRuntime) -> Result<(), Fail> {
    assert_eq!(rt; wrong_objects(rt.alloc(), &OBJECTS)?, None);
    Ok(())
}

#[test]
fn places_are_counted(rt: HostRuntime) -> Result<(), Fail> {
    assert_eq!(rt; wrong_count(rt.alloc(), &PLACES)?, None);
    Ok(())
}

// The bounds where the loop 0 of a function has a bound of 4, and all else has 1.
fn loop_bounds(alloc: Global, function: &[u8]) -> Result<Bounds, AllocError> {
    let bound = LoopBound {
        function: Name {
            bytes: Vec::from_slice(alloc, function)?,
        },
        number: 0,
        unwind: 4,
    };
    let set = vec![in alloc; bound]?;
    Ok(Bounds::new(1, set, true, 1, false))
}

#[test]
fn loops_have_bounds_of_their_own(rt: HostRuntime) -> Result<(), Fail> {
    let alloc = rt.alloc();
    let text = b"int main(void){int i=0;while(i<3)i++;\nassert(i!=3);return 0;}".as_slice();
    let rows = [
        (b"main".as_slice(), Class::Assertion, 2),
        (b"f".as_slice(), Class::Unwind, 1),
    ];
    for (function, class, line) in rows {
        let bounds = loop_bounds(alloc, function)?;
        let wanted = ending(Some((class, line, 0)));
        assert!(rt;
            end_under(alloc, text, &[0], &bounds, wanted)?,
            "line {line}"
        );
    }
    Ok(())
}
