//! Tests of the actions of a thread, as tables.

// What a thread asks of its objects, action by action, where each Read gives bytes that are 0, each Look a size of 16 and each Draw 0.
// A run tells less: no check tells in which order objects die.

ghost use Rattle.std.specs.Prelude.{◌≡◌, [], true, IfOk, IfSome};
ghost use Rattle.actions.specs.Behaviour.{shape_of, has_shape, accepts};
ghost use Rattle.c_interp.specs.View.{thread_of};

use crate::row_tests::admitted;
use actions::{Action, Answer, Bytes, Machine, Next, Object};
use c_interp::Thread;
use c_profile::Admitted;
use core_tree::Bounds;
use std::alloc::{AllocError, Global};
use std::test::*;
use tree_notation::Unread;
use words::Word;

// Rows "ACTIONS@C TEXT@TREE": each action with its line, `K.O` for byte O of object K; a write is the `first` one of an initializer.
const ACTIONS: &str = "\
alloc 4:1, alloc 4:2, first 1.0 4:1, first 2.0 4:2, die 2:2, die 1:1, exit:1@int main(void){{int x=1;$int y=2;}}@int:main x:4& y:4& { { 1 x:= $ 2 y:= } } end
draw 32:1, alloc 4:1, draw 32:2, alloc 4:2, die 2:2, die 1:1, exit:1@int main(void){int x;$int y;}@int:main x:4& y:4& { x! $ y! } end
draw 32:1, alloc 4:1, draw 32:2, alloc 4:2, die 2:2, die 1:1, exit:1@int main(void){for(int i=0;i<1;i++){int x;$int y;continue;}}@int:main i:4 x:4& y:4& { 0 i:= i int 1 < i int++ { x! $ y! continue } for } end
draw 32:1, alloc 4:1, draw 32:2, alloc 4:2, die 2:2, die 1:1, exit:1@int main(void){while(1){int x;$int y;break;}}@int:main x:4& y:4& { 1 { x! $ y! break } while } end
draw 32:1, alloc 4:1, draw 32:2, alloc 4:2, die 2:2, die 1:1, exit:1@int main(void){switch(1){int x;$int y;case 1:break;}}@int:main x:4& y:4& { 1 { x! $ y! case:1 break } switch } end
draw 32:1, alloc 4:1, draw 32:2, alloc 4:2, die 2:2, die 1:1, exit:1@int main(void){switch(2){int x;$int y;default:;}}@int:main x:4& y:4& { 2 { x! $ y! default } switch } end
exit:1@int main(void){switch(2){int x;int y;case 1:break;}}@int:main x:4& y:4& { 2 { x! y! case:1 break } switch } end
draw 32:1, alloc 4:1, draw 32:2, alloc 4:2, draw 32:3, alloc 4:3, die 3:3, die 2:2, die 1:1, exit:1@int main(void){{int x;$int y;{$int z;goto l;}}l:;}@int:main x:4& y:4& z:4& { { x! $ y! { $ z! goto:0 } } label:0 } end
draw 32:1, alloc 4:1, draw 32:2, alloc 4:2, draw 32:3, alloc 4:3, die 3:3, die 2:2, die 1:1, exit:1@int main(void){int x;$int y;{$int z;return 0;}}@int:main x:4& y:4& z:4& { x! $ y! { $ z! 0 return } } end
draw 32:1, alloc 4:1, die 1:1, draw 32:1, alloc 4:1, die 2:1, exit:1@int main(void){for(int i=0;i<2;i++){int x;}}@int:main i:4 x:4& { 0 i:= i int 2 < i int++ { x! } for } end
alloc 4:1, alloc 4:1, alloc 4:2, first 3.0 4:2, alloc 4:3, first 4.0 4:3, read 4.0 4:3, die 4:3, die 3:2, die 2:1, die 1:1, exit:4@int f(int a,int b){$int x=1;${int y=2;return y;}}$int main(void){f(5,6);}@int:f (a:int)& (b:int)& x:4& y:4& { $ 1 x:= $ { 2 y:= y int return } } end $ int:main { 5 6 f() ; } end
alloc 4:1, die 1:1, exit:2@void f(int a,int b){}$int main(void){f(5,6);}@void:f (a:int) (b:int)& { } end $ int:main { 5 6 f() ; } end
draw 64:1, draw 8:1, alloc 9:1, die 1:1, exit:1@int main(void){char a[9];a;}@int:main a:9& { a! } end
draw 64:1, draw 64:1, alloc 16:1, die 1:1, exit:1@int main(void){char a[16];a;}@int:main a:16& { a! } end
draw 24:1, alloc 3:1, die 1:1, exit:1@int main(void){char a[3];a;}@int:main a:3& { a! } end
draw 64:1, draw 8:1, exit:1@int main(void){char a[9];}@int:main a:9 { a! } end
draw 32:2, alloc 4:2, first 1.0 4:2, die 1:2, exit:1@int main(void){$int x=(&x,1);}@int:main x:4& { $ x & 1 , x:=? } end
draw 64:1, draw 8:1, alloc 9 heap:1, exit:1@int main(void){malloc(9);}@int:main { 9ul malloc ; } end
alloc 9 heap:2, exit:1@int main(void){$calloc(3,3);}@int:main { 3ul 3ul $ calloc ; } end
alloc 0 heap:1, exit:1@int main(void){malloc(0);}@int:main { 0ul malloc ; } end
alloc 0 heap:1, free 1.0:2, exit:1@int main(void){$free(malloc(0));}@int:main { 0ul malloc $ free ; } end
exit:1@int main(void){free(0);}@int:main { 0ul free ; } end
alloc 4 const:1, first 1.0 4:1, die 1:1, exit:1@int main(void){const int x=5;&x;}@int:main x:4&const { 5 x:= } end
alloc 4:1, first 1.0 4:1, exit:2@int main(void){int x=1;&x;$exit(0);}@int:main x:4& { 1 x:= 0 $ exit ; } end
alloc 4:1, first 1.0 4:1, exit:2@int main(void){int x=1;&x;$abort();}@int:main x:4& { 1 x:= $ abort ; } end
alloc 4:1, first 1.0 4:1, blocked@int main(void){int x=1;&x;__CPROVER_assume(0);}@int:main x:4& { 1 x:= 0 assume ; } end
alloc 4:1, first 1.0 4:1, broken:2@int main(void){int x=1;&x;$assert(0);}@int:main x:4& { 1 x:= 0 $ assert ; } end
subscript 1.4:2, read 1.8 4:2, exit:1@int a[4];int main(void){int *p=&a[1];p$[1];}@object:16 int:main p:8 { #1.4 & p:= p ulong 1 $ [4] int ; } end
sum 1.4:2, read 1.8 4:3, exit:1@int a[4];int main(void){int *p=&a[1];*$(p+1);}@object:16 int:main p:8 { #1.4 & p:= p ulong 1 $ p+4 $ * int ; } end
subscript 1.4:2, exit:1@int a[4];int main(void){int *p=&a[1];&p$[1];}@object:16 int:main p:8 { #1.4 & p:= p ulong 1 $ [4] & ; } end
exit:1@int a[4];int main(void){int *p=&a[1];&*p;p;p-p;p<p;}@object:16 int:main p:8 { #1.4 & p:= p ulong * & ; p ulong p ulong p~4 ; p ulong p ulong p< ; } end
read 1.4 4:2, write 1.4 4:3, exit:1@int a[4];int main(void){a$[1]$+=1;}@object:16 int:main { #1 1 $ [4/16] 1 $ int+= ; } end
read 1.0 8:2, write 2.0 8:3, exit:1@struct S{int a;int b;}s,t;int main(void){t$=s;}@object:8 object:8 int:main { #2 $ #1 @8 $ = drop ; } end
read 1.0 8:2, sum 0.0:3, write 1.0 8:3, exit:1@int *p;int main(void){$p$++;}@object:8 int:main { $ #1 $ p++4 ; } end";

// An answer that an action may be given.
fn answer_to(alloc: Global, action: &Action, number: u32) -> Result<Answer, AllocError>
    ensures { IfOk result (λ a. has_shape (shape_of action.now) a ≡ true) }
{
    match action {
        Action::Read(_, count) => Ok(Answer::Bytes(Bytes::new(
            vec![in alloc; 0; *count as usize]?,
        ))),
        Action::Look(_, _) => Ok(Answer::Size(16)),
        Action::Draw(bits) => Ok(Answer::Word(Word::new(0, bits.bits()))),
        Action::Alloc(_) => Ok(Answer::Number(number)),
        Action::Create(_, _) => Ok(Answer::Number(number)),
        Action::Join(_) => Ok(Answer::Value(0)),
        _ => Ok(Answer::Done),
    }
}

fn pointer(alloc: Global, at: u64) -> Result<String, AllocError> {
    let number = at >> 32;
    let offset = at & 0xffff_ffff;
    format!(in alloc; "{number}.{offset}")
}

fn made(alloc: Global, object: &Object) -> Result<String, AllocError> {
    let size = object.size;
    let constant = if object.readonly { " const" } else { "" };
    let heap = if object.heap { " heap" } else { "" };
    format!(in alloc; "alloc {size}{constant}{heap}")
}

fn told(alloc: Global, action: &Action) -> Result<String, AllocError> {
    match action {
        Action::Read(at, count) => {
            let at = pointer(alloc, *at)?;
            format!(in alloc; "read {at} {count}")
        }
        Action::Write(at, bytes, first) => {
            let at = pointer(alloc, *at)?;
            let word = if *first { "first" } else { "write" };
            let count = bytes.as_slice().len();
            format!(in alloc; "{word} {at} {count}")
        }
        Action::Look(at, subscript) => {
            let at = pointer(alloc, *at)?;
            let word = if *subscript { "subscript" } else { "sum" };
            format!(in alloc; "{word} {at}")
        }
        Action::Draw(bits) => {
            let bits = bits.bits();
            format!(in alloc; "draw {bits}")
        }
        Action::Alloc(object) => made(alloc, object),
        Action::Die(number) => format!(in alloc; "die {number}"),
        Action::Free(at) => {
            let at = pointer(alloc, *at)?;
            format!(in alloc; "free {at}")
        }
        Action::Exit => format!(in alloc; "exit"),
        _ => format!(in alloc; "another"),
    }
}

// The action with its line, and the answer to it.
fn take(
    alloc: Global,
    thread: &mut Thread,
    log: &mut String,
    number: u32,
) -> Result<Option<Answer>, AllocError>
    ensures { IfOk result (λ found. IfSome found (λ a. accepts ((thread_of thread.new).behaves []) a ≡ true)) }
{
    match thread.advance()? {
        Next::Act(action, line, _) => {
            let text = told(alloc, &action)?;
            log.push_str(text.as_str())?;
            let behind = format!(in alloc; ":{line}, ")?;
            log.push_str(behind.as_str())?;
            Ok(Some(answer_to(alloc, &action, number)?))
        }
        Next::Ended(_) => Ok(None),
        Next::Blocked => {
            log.push_str("blocked, ")?;
            Ok(None)
        }
        Next::Broken(_, line, _) => {
            let text = format!(in alloc; "broken:{line}, ")?;
            log.push_str(text.as_str())?;
            Ok(None)
        }
    }
}

// The actions of a file's thread, at most 60.
fn actions_of(alloc: Global, file: &Admitted) -> Result<String, Unread> {
    let bounds = Bounds::new(8, Vec::new(alloc), true, 256, false);
    let mut thread = Thread::new(alloc, file, &bounds)?;
    let mut log = String::new(alloc);
    let there = file.core().objects().len() + file.core().literals().len();
    let mut number = u32::try_from(there).unwrap_or(0).saturating_add(1);
    for _ in 0..60 {
        match take(alloc, &mut thread, &mut log, number)? {
            Some(answer) => {
                if matches!(&answer, Answer::Number(_)) {
                    number = number.saturating_add(1);
                }
                thread.answer(&answer)?;
            }
            None => return Ok(log),
        }
    }
    Ok(log)
}

fn holds(alloc: Global, row: &str) -> Result<bool, Unread> {
    let (wanted, rest) = row.split_once('@').unwrap_or((row, ""));
    let (_, tree) = rest.split_once('@').unwrap_or(("", rest));
    let file = admitted(alloc, tree)?;
    let log = actions_of(alloc, &file)?;
    Ok(log.as_str().strip_suffix(", ").unwrap_or("") == wanted)
}

// The rows with other actions, or that can't be read.
fn wrong_rows(alloc: Global, rows: &str) -> Result<String, AllocError> {
    let mut wrong = String::new(alloc);
    for row in rows.lines() {
        match holds(alloc, row) {
            Ok(true) => {}
            Ok(false) => {
                wrong.push_str(row)?;
                wrong.push_str("\n")?;
            }
            Err(_) => {
                wrong.push_str("unread: ")?;
                wrong.push_str(row)?;
                wrong.push_str("\n")?;
            }
        }
    }
    Ok(wrong)
}

#[test]
fn threads_do_these_actions(rt: HostRuntime) -> Result<(), Fail> {
    assert_eq!(rt; wrong_rows(rt.alloc(), ACTIONS)?.as_str(), "");
    Ok(())
}
