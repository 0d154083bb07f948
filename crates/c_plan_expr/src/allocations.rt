//! What is done with objects that are allocated and released.

ghost use Rattle.std.specs.Prelude.{◌≡◌, ◌*◌, nat_le, true, false, IfOk, MatchOption};
ghost use Rattle.c_tasks.specs.Items.{claims, tries, admits, draws, makes, releases};
ghost use Rattle.c_tasks.specs.Plans.{FitsIn, PlansItem, code_in};

use crate::places::{pointer, second_bits, top_bits};
use actions::DrawBits;
use c_tasks::{
    Block, Halt, Look, Plan, Request, Stacked, Taken, Task, Written, count_more, pushes, puts,
    stacks, top_of,
};
use c_types::IntegerType;
use c_values::{Number, word_count};
use std::alloc::AllocError;
use words::Class;

/// An allocation begins: where it may fail, a bit is drawn.
pub fn plan_claim<'a>(look: &Look, line: u32, zeroed: bool) -> Plan<'a>
    ensures { PlansItem look.now (claims line zeroed) result }
{
    if look.bounds.malloc_may_fail() {
        Plan::Halts(Halt::Asks(Request::Draw(DrawBits::new(1)), line))
    } else {
        pushes(Taken::None, Task::Admit { line, zeroed }, None, None)
    }
}

/// It fails where the bit on top is 1.
pub fn plan_try<'a>(look: &Look, line: u32, zeroed: bool) -> Plan<'a>
    ensures { PlansItem look.now (tries line zeroed) result }
{
    if !top_of(look.numbers).is_true() {
        return pushes(Taken::One, Task::Admit { line, zeroed }, None, None);
    }
    if zeroed {
        puts(Taken::Three, pointer(0))
    } else {
        puts(Taken::Two, pointer(0))
    }
}

// So many bytes, where they are at most as many as a limit.
fn at_most(size: u64, limit: u32) -> Option<u32>
    ensures { MatchOption result (nat_le size limit ≡ false) (λ n. (nat_le size limit ≡ true) × (n ≡ size)) }
{
    if size <= limit as u64 {
        Some(size as u32)
    } else {
        None
    }
}

// So a product.
fn product_at_most(count: u64, size: u64, limit: u32) -> Option<u32>
    ensures { MatchOption result (nat_le (count * size) limit ≡ false) (λ n. (nat_le (count * size) limit ≡ true) × (n ≡ count * size)) }
{
    match count.checked_mul(size) {
        Some(product) => at_most(product, limit),
        None => None,
    }
}

// So many bytes, where the limit allows them.
fn within_limit(look: &Look, size: u64) -> Option<u32>
    ensures { MatchOption result (nat_le size (code_in look.now).malloc_limit ≡ false) (λ n. (nat_le size (code_in look.now).malloc_limit ≡ true) × (n ≡ size)) }
{
    at_most(size, look.bounds.malloc_limit())
}

// So many objects of so many bytes, where the limit allows their product.
fn product_within_limit(look: &Look, count: u64, size: u64) -> Option<u32>
    ensures { MatchOption result (nat_le (count * size) (code_in look.now).malloc_limit ≡ false) (λ n. (nat_le (count * size) (code_in look.now).malloc_limit ≡ true) × (n ≡ count * size)) }
{
    product_at_most(count, size, look.bounds.malloc_limit())
}

// The size of an allocation is tested; its words are to be drawn.
fn plan_drawn<'a>(look: &Look, line: u32) -> Result<Plan<'a>, AllocError>
    ensures { IfOk result (λ p. PlansItem look.now (admits line false) p) }
{
    let Some(size) = within_limit(look, top_bits(look)) else {
        return Ok(Plan::Halts(Halt::Breaks(Class::MallocLimit, line)));
    };
    let none = Block::new(look.alloc, 0)?;
    let words = word_count(size);
    Ok(stacks(
        Some(Task::DrawWords { words, size, line }),
        Taken::None,
        None,
        Stacked::Pushed(none),
        Written::Nothing,
    ))
}

// So the product of two; each byte is 0.
fn plan_zeroed<'a>(look: &Look, line: u32) -> Result<Plan<'a>, AllocError>
    ensures { IfOk result (λ p. PlansItem look.now (admits line true) p) }
{
    let Some(size) = product_within_limit(look, second_bits(look), top_bits(look)) else {
        return Ok(Plan::Halts(Halt::Breaks(Class::MallocLimit, line)));
    };
    let zeros = Block::new(look.alloc, size)?;
    Ok(stacks(
        Some(Task::Make { line }),
        Taken::Two,
        Some(pointer(size as u64)),
        Stacked::Pushed(zeros),
        Written::Nothing,
    ))
}

/// The size of an allocation is tested.
pub fn plan_admit<'a>(look: &Look, line: u32, zeroed: bool) -> Result<Plan<'a>, AllocError>
    requires { FitsIn look.now (admits line zeroed) }
    ensures { IfOk result (λ p. PlansItem look.now (admits line zeroed) p) }
{
    if zeroed {
        plan_zeroed(look, line)
    } else {
        plan_drawn(look, line)
    }
}

/// The next of the words that are drawn of an object.
pub fn plan_draw_words<'a>(look: &Look, words: u32, size: u32, line: u32) -> Plan<'a>
    requires { FitsIn look.now (draws words size line) }
    ensures { PlansItem look.now (draws words size line) result }
{
    if words == 0 {
        return pushes(Taken::None, Task::Make { line }, None, None);
    }
    let bits = DrawBits::new(8 * count_more(look, size));
    Plan::Halts(Halt::Asks(Request::Draw(bits), line))
}

/// The object is made.
pub fn plan_make<'a>(_look: &Look, line: u32) -> Plan<'a>
    ensures { PlansItem _look.now (makes line) result }
{
    Plan::Halts(Halt::Asks(Request::Allocate, line))
}

/// An object is released; the null pointer is not.
pub fn plan_release<'a>(look: &Look, line: u32) -> Plan<'a>
    ensures { PlansItem look.now (releases line) result }
{
    let pointer = top_bits(look);
    if pointer == 0 {
        puts(Taken::One, Number::new(IntegerType::Int, 0))
    } else {
        Plan::Halts(Halt::Asks(Request::Free(pointer), line))
    }
}
