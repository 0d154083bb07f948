//! The words of statements, expressions and places.

// A name alone is a place, and x.N is N bytes into it. Each other word works on what stands before it, `e` an expression, `p` a place,
// `a` a structure value and `s` a statement, and gives a node at its own line:
//
//     #K #K.N 'K           the static object K, N bytes into it; the string K
//     e *  e ->N  p .N     what a pointer points to; a member N bytes on, of what it points to, and of a place
//     e e [N] e e [N]~     an element of N bytes; with the index first
//     p e [N/M] e p [N/M]~ an element of N bytes of an array in an object of M bytes
//     N -N Nul             a number of type int, and of type unsigned long
//     p T  p e T=  p e T+= p T++ p ++T p T-- p --T     a read, writes at a type T
//     T?  e (T)            an input; a conversion
//     e e + - / == != <    e !  e e && e e ,
//     p &                  the pointer to a place
//     e e p+N e e p+N~     a sum with steps of N bytes; with the integer first. So p-N
//     e e p~N e e p< p> p<= p>=    a difference in elements of N bytes; relations
//     p e p+=N p p++N p ++pN   sums at the place of a pointer; so p-=N p--N --pN
//     e malloc e e calloc e free e exit abort e assert e assume
//     f()                  a call of the function f, with as many expressions as it has parameters
//     p @N  p a = a drop   N bytes of a place; they take a place; a value that isn't used
//     e ;  e return  return;   statements
//     { s .. }             a block
//     e s if  e s s else  e s while  e e s for  e s do  break  continue
//     e { .. } switch  case:N  default  goto:N  label:N
//     x!                   the declaration of x, without initializer
//     e x:=  e x:=? a x@=  with initializer: an integer; one where x is drawn too; a structure value

use crate::reading::{Reading, Unread, integer_type, number};
use c_types::{IntegerType, ValueType};
use core_tree::{
    ArithmeticOperator, Comparison, CoreArgument, CoreExpr, CoreItem, CoreStatement, CoreStructure,
    LogicalOperator, PassedType, Place, StepOperator,
};

impl<'a> Reading<'a> {
    // ---- places

    pub(crate) fn read_place(&mut self, word: &str) -> Result<bool, Unread> {
        let line = self.line;
        if word == "*" {
            let pointer = self.pop()?;
            self.push_place(Place::Pointed { line, pointer })?;
            return Ok(true);
        }
        if let Some(text) = word.strip_prefix("->") {
            let pointer = self.pop()?;
            self.push_place(Place::Arrow {
                line,
                pointer,
                offset: number(text)?,
            })?;
            return Ok(true);
        }
        if let Some(text) = word.strip_prefix('[') {
            self.read_element(text)?;
            return Ok(true);
        }
        self.read_object(word)
    }

    // A place in a static object, a string, or a member.
    fn read_object(&mut self, word: &str) -> Result<bool, Unread> {
        let line = self.line;
        if let Some(text) = word.strip_prefix('.') {
            let place = self.pop_place()?;
            self.push_place(Place::Member {
                line,
                place,
                offset: number(text)?,
            })?;
            return Ok(true);
        }
        if let Some(text) = word.strip_prefix('\'') {
            self.push_place(Place::Literal {
                line,
                literal: number(text)?,
            })?;
            return Ok(true);
        }
        if let Some(text) = word.strip_prefix('#') {
            let (object, offset) = text.split_once('.').unwrap_or((text, "0"));
            self.push_place(Place::Object {
                line,
                object: number(object)?,
                offset: number(offset)?,
            })?;
            return Ok(true);
        }
        self.read_offset(word)
    }

    // A place some bytes into a variable.
    fn read_offset(&mut self, word: &str) -> Result<bool, Unread> {
        let (name, offset) = word.split_once('.').unwrap_or((word, "0"));
        match self.variable(name) {
            Some(variable) => {
                let line = self.line;
                self.push_place(Place::Variable {
                    line,
                    variable,
                    offset: number(offset)?,
                })?;
                Ok(true)
            }
            None => Ok(false),
        }
    }

    // An element, by its size and what stands behind that.
    fn read_element(&mut self, text: &str) -> Result<(), Unread> {
        let line = self.line;
        let (sizes, behind) = text.split_once(']').ok_or(Unread::Word)?;
        let swapped = behind == "~";
        match sizes.split_once('/') {
            Some(parts) => {
                let index = self.pop()?;
                let place = self.pop_place()?;
                self.push_place(Place::Element {
                    line,
                    place,
                    index,
                    size: number(parts.0)?,
                    whole: number(parts.1)?,
                    swapped,
                })
            }
            None => {
                let (pointer, index) = self.pop_pair(swapped)?;
                self.push_place(Place::Subscript {
                    line,
                    pointer,
                    index,
                    size: number(sizes)?,
                    swapped,
                })
            }
        }
    }

    // Two expressions, in their order or the other way round.
    fn pop_pair(&mut self, swapped: bool) -> Result<(Box<CoreExpr>, Box<CoreExpr>), Unread> {
        let second = self.pop()?;
        let first = self.pop()?;
        if swapped {
            Ok((second, first))
        } else {
            Ok((first, second))
        }
    }

    // ---- expressions

    pub(crate) fn read_number(&mut self, word: &str) -> Result<bool, Unread> {
        let line = self.line;
        if let Some(text) = word.strip_suffix("ul") {
            if let Some(bits) = text.parse::<u64>().ok() {
                self.push(CoreExpr::Constant {
                    line,
                    type_: IntegerType::UnsignedLong,
                    bits,
                })?;
                return Ok(true);
            }
        }
        match word.parse::<i32>().ok() {
            Some(value) => {
                self.push(CoreExpr::Constant {
                    line,
                    type_: IntegerType::Int,
                    bits: u32::from_le_bytes(value.to_le_bytes()) as u64,
                })?;
                Ok(true)
            }
            None => Ok(false),
        }
    }

    // A word with the name of a type.
    pub(crate) fn read_typed(&mut self, word: &str) -> Result<bool, Unread> {
        if let Some(type_) = integer_type(word) {
            let place = self.pop_place()?;
            self.push(CoreExpr::Read { type_, place })?;
            return Ok(true);
        }
        let before = word.starts_with("++") || word.starts_with("--");
        let name = word.trim_matches(['+', '-', '=', '?', '(', ')']);
        match integer_type(name) {
            Some(type_) => self.read_access(word, type_, before),
            None => Ok(false),
        }
    }

    fn read_access(
        &mut self,
        word: &str,
        type_: IntegerType,
        before: bool,
    ) -> Result<bool, Unread> {
        let line = self.line;
        if word.starts_with('(') {
            let operand = self.pop()?;
            self.push(CoreExpr::Convert { to: type_, operand })?;
        } else if word.ends_with('?') {
            self.push(CoreExpr::Draw { line, type_ })?;
        } else if word.ends_with("+=") {
            let value = self.pop()?;
            let place = self.pop_place()?;
            self.push(CoreExpr::Update {
                line,
                type_,
                place,
                operator: ArithmeticOperator::Add,
                operand: type_,
                value,
            })?;
        } else if word.ends_with('=') {
            let value = self.pop()?;
            let place = self.pop_place()?;
            self.push(CoreExpr::Assign {
                line,
                type_,
                place,
                value,
            })?;
        } else {
            self.read_step(word, type_, before)?;
        }
        Ok(true)
    }

    fn read_step(&mut self, word: &str, type_: IntegerType, before: bool) -> Result<(), Unread> {
        let line = self.line;
        let place = self.pop_place()?;
        let operator = if word.contains('+') {
            StepOperator::Increment
        } else {
            StepOperator::Decrement
        };
        self.push(CoreExpr::Step {
            line,
            type_,
            place,
            operator,
            before,
        })
    }

    pub(crate) fn read_arithmetic(&mut self, word: &str) -> Result<bool, Unread> {
        let line = self.line;
        if let Some(operator) = arithmetic(word) {
            let (left, right) = self.pop_pair(false)?;
            self.push(CoreExpr::Arithmetic {
                line,
                operator,
                left,
                right,
            })?;
            return Ok(true);
        }
        if let Some(operator) = comparison(word) {
            let (left, right) = self.pop_pair(false)?;
            self.push(CoreExpr::Compare {
                line,
                operator,
                left,
                right,
            })?;
            return Ok(true);
        }
        if word == "&&" {
            let (left, right) = self.pop_pair(false)?;
            self.push(CoreExpr::Logical {
                line,
                operator: LogicalOperator::And,
                left,
                right,
            })?;
            return Ok(true);
        }
        if word == "," {
            let (left, right) = self.pop_pair(false)?;
            self.push(CoreExpr::Comma { line, left, right })?;
            return Ok(true);
        }
        self.read_single(word)
    }

    // An operator on one operand.
    fn read_single(&mut self, word: &str) -> Result<bool, Unread> {
        let line = self.line;
        if word == "&" {
            let place = self.pop_place()?;
            self.push(CoreExpr::Address { line, place })?;
            return Ok(true);
        }
        if word == "!" {
            let operand = self.pop()?;
            self.push(CoreExpr::IsZero { line, operand })?;
            return Ok(true);
        }
        if word == "assert" {
            let condition = self.pop()?;
            self.push(CoreExpr::Assertion { line, condition })?;
            return Ok(true);
        }
        if word == "assume" {
            let condition = self.pop()?;
            self.push(CoreExpr::Assumption { line, condition })?;
            return Ok(true);
        }
        if word == "drop" {
            let value = self.pop_structure()?;
            self.push(CoreExpr::DiscardStructure { value })?;
            return Ok(true);
        }
        self.read_heap(word)
    }

    // A call of a function of the heap, or one that ends the process.
    fn read_heap(&mut self, word: &str) -> Result<bool, Unread> {
        let line = self.line;
        if word == "malloc" {
            let size = self.pop()?;
            self.push(CoreExpr::Allocate { line, size })?;
        } else if word == "calloc" {
            let (count, size) = self.pop_pair(false)?;
            self.push(CoreExpr::AllocateZeroed { line, count, size })?;
        } else if word == "free" {
            let pointer = self.pop()?;
            self.push(CoreExpr::Release { line, pointer })?;
        } else if word == "exit" {
            let status = self.pop()?;
            self.push(CoreExpr::Exit { line, status })?;
        } else if word == "abort" {
            self.push(CoreExpr::Abort { line })?;
        } else {
            return Ok(false);
        }
        Ok(true)
    }

    // ---- sums, differences and relations of pointers

    pub(crate) fn read_pointer(&mut self, word: &str) -> Result<bool, Unread> {
        let line = self.line;
        if let Some(text) = word.strip_prefix("p~") {
            let (left, right) = self.pop_pair(false)?;
            self.push(CoreExpr::Distance {
                line,
                left,
                right,
                step: number(text)?,
            })?;
            return Ok(true);
        }
        if let Some(operator) = relation(word) {
            let (left, right) = self.pop_pair(false)?;
            self.push(CoreExpr::Relation {
                line,
                operator,
                left,
                right,
            })?;
            return Ok(true);
        }
        if word.starts_with("p+") || word.starts_with("p-") {
            self.read_sum(word)?;
            return Ok(true);
        }
        if word.starts_with("++p") || word.starts_with("--p") {
            self.read_pointer_step(word, true)?;
            return Ok(true);
        }
        Ok(false)
    }

    fn read_sum(&mut self, word: &str) -> Result<(), Unread> {
        let line = self.line;
        let step = step_of(word)?;
        if word.contains('=') {
            let value = self.pop()?;
            let place = self.pop_place()?;
            return self.push(CoreExpr::PointerUpdate {
                line,
                place,
                step,
                value,
            });
        }
        if word.starts_with("p++") || word.starts_with("p--") {
            return self.read_pointer_step(word, false);
        }
        let swapped = word.ends_with('~');
        let (pointer, index) = self.pop_pair(swapped)?;
        self.push(CoreExpr::Sum {
            line,
            pointer,
            index,
            step,
            swapped,
        })
    }

    fn read_pointer_step(&mut self, word: &str, before: bool) -> Result<(), Unread> {
        let line = self.line;
        let step = step_of(word)?;
        let place = self.pop_place()?;
        self.push(CoreExpr::PointerStep {
            line,
            place,
            step,
            before,
        })
    }

    // ---- calls

    pub(crate) fn read_call(&mut self, word: &str) -> Result<bool, Unread> {
        match word.strip_suffix("()") {
            Some(name) => {
                let function = self.function(name).ok_or(Unread::Word)?;
                self.call(function)?;
                Ok(true)
            }
            None => Ok(false),
        }
    }

    // How many parameters a function has, and what it gives.
    fn signature(&self, function: u32) -> (usize, Option<PassedType>) {
        match self.functions.get(function as usize) {
            Some(found) => (found.parameters.len(), found.gives),
            None => (self.parameters.len(), self.gives),
        }
    }

    fn call(&mut self, function: u32) -> Result<(), Unread> {
        let line = self.line;
        let (count, gives) = self.signature(function);
        let mut arguments = Vec::new(self.alloc);
        for _ in 0..count {
            let value = self.pop()?;
            arguments.push(CoreArgument::Number { value })?;
        }
        arguments.reverse();
        let type_ = match gives {
            Some(PassedType::Integer(type_)) => ValueType::Integer(type_),
            _ => ValueType::Void,
        };
        self.push(CoreExpr::Call {
            line,
            function,
            used: gives.is_some(),
            type_,
            arguments,
        })
    }

    // ---- structure values

    pub(crate) fn read_structure(&mut self, word: &str) -> Result<bool, Unread> {
        let line = self.line;
        if let Some(text) = word.strip_prefix('@') {
            let place = self.pop_place()?;
            self.push_structure(CoreStructure::Read {
                place,
                size: number(text)?,
            })?;
            return Ok(true);
        }
        if word == "=" {
            let value = self.pop_structure()?;
            let place = self.pop_place()?;
            self.push_structure(CoreStructure::Assign { line, place, value })?;
            return Ok(true);
        }
        Ok(false)
    }
}

fn arithmetic(word: &str) -> Option<ArithmeticOperator> {
    if word == "+" {
        Some(ArithmeticOperator::Add)
    } else if word == "-" {
        Some(ArithmeticOperator::Subtract)
    } else if word == "/" {
        Some(ArithmeticOperator::Divide)
    } else {
        None
    }
}

fn comparison(word: &str) -> Option<Comparison> {
    if word == "==" {
        Some(Comparison::Equal)
    } else if word == "!=" {
        Some(Comparison::NotEqual)
    } else if word == "<" {
        Some(Comparison::Less)
    } else {
        None
    }
}

fn relation(word: &str) -> Option<Comparison> {
    if word == "p<" {
        Some(Comparison::Less)
    } else if word == "p>" {
        Some(Comparison::Greater)
    } else if word == "p<=" {
        Some(Comparison::LessEqual)
    } else if word == "p>=" {
        Some(Comparison::GreaterEqual)
    } else {
        None
    }
}

// The bytes of a step: a number behind signs, less than 0 behind a '-'.
fn step_of(word: &str) -> Result<i64, Unread> {
    let bytes = number(word.trim_matches(['p', '+', '-', '=', '~']))? as i64;
    if word.contains('-') {
        Ok(-bytes)
    } else {
        Ok(bytes)
    }
}
