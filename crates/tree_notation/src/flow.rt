//! The words of statements and of the items of blocks.

use crate::reading::{Reading, Unread, number};
use c_types::IntegerType;
use core_tree::{CoreItem, CoreStatement};

impl<'a> Reading<'a> {
    pub(crate) fn read_word(&mut self, word: &'a str) -> Result<(), Unread> {
        if self.read_block(word)?
            || self.read_statement(word)?
            || self.read_item(word)?
            || self.read_place(word)?
            || self.read_number(word)?
            || self.read_typed(word)?
            || self.read_arithmetic(word)?
            || self.read_pointer(word)?
            || self.read_call(word)?
            || self.read_structure(word)?
            || self.read_file_word(word)?
        {
            Ok(())
        } else {
            Err(Unread::Word)
        }
    }

    fn read_block(&mut self, word: &str) -> Result<bool, Unread> {
        if word == "{" {
            self.blocks.push(Vec::new(self.alloc))?;
            return Ok(true);
        }
        if word == "}" {
            let items = self.blocks.pop().ok_or(Unread::Word)?;
            self.add_statement(CoreStatement::Block { items })?;
            return Ok(true);
        }
        Ok(false)
    }

    fn read_statement(&mut self, word: &str) -> Result<bool, Unread> {
        let line = self.line;
        if word == ";" {
            let expression = self.pop()?;
            self.add_statement(CoreStatement::Evaluate { expression })?;
        } else if word == "return" {
            let value = self.pop()?;
            self.add_statement(CoreStatement::Return { line, value })?;
        } else if word == "return;" {
            self.add_statement(CoreStatement::ReturnNothing { line })?;
        } else if word == "break" {
            self.add_statement(CoreStatement::Break { line })?;
        } else if word == "continue" {
            self.add_statement(CoreStatement::Continue { line })?;
        } else {
            return self.read_branch(word);
        }
        Ok(true)
    }

    fn read_branch(&mut self, word: &str) -> Result<bool, Unread> {
        let line = self.line;
        if word == "if" {
            let test = self.pop()?;
            let yes = self.take_statement()?;
            self.add_statement(CoreStatement::If { line, test, yes })?;
        } else if word == "else" {
            let test = self.pop()?;
            let no = self.take_statement()?;
            let yes = self.take_statement()?;
            self.add_statement(CoreStatement::IfElse {
                line,
                test,
                yes,
                no,
            })?;
        } else {
            return self.read_loop(word);
        }
        Ok(true)
    }

    fn read_loop(&mut self, word: &str) -> Result<bool, Unread> {
        let line = self.line;
        let number = self.loops;
        if word == "while" {
            let test = self.pop()?;
            let body = self.take_statement()?;
            self.add_statement(CoreStatement::For {
                line,
                number,
                first: None,
                test: Some(test),
                last: None,
                body,
            })?;
        } else if word == "for" {
            let last = self.pop()?;
            let test = self.pop()?;
            let body = self.take_statement()?;
            self.add_statement(CoreStatement::For {
                line,
                number,
                first: None,
                test: Some(test),
                last: Some(last),
                body,
            })?;
        } else if word == "do" {
            let test = self.pop()?;
            let body = self.take_statement()?;
            self.add_statement(CoreStatement::Do {
                line,
                number,
                body,
                test,
            })?;
        } else {
            return self.read_switch(word);
        }
        self.loops = self.loops.saturating_add(1);
        Ok(true)
    }

    fn read_switch(&mut self, word: &str) -> Result<bool, Unread> {
        if word != "switch" {
            return Ok(false);
        }
        let line = self.line;
        let value = self.pop()?;
        let body = self.take_statement()?;
        match Box::into_inner(body) {
            CoreStatement::Block { items } => {
                self.add_statement(CoreStatement::Switch { line, value, items })?;
                Ok(true)
            }
            _ => Err(Unread::Word),
        }
    }

    fn read_item(&mut self, word: &str) -> Result<bool, Unread> {
        let line = self.line;
        if let Some(name) = word.strip_suffix('!') {
            if let Some(variable) = self.variable(name) {
                self.add(CoreItem::Declare { line, variable })?;
                return Ok(true);
            }
        }
        if let Some(text) = word.strip_prefix("case:") {
            self.add(CoreItem::Case {
                line,
                type_: IntegerType::Int,
                bits: number(text)? as u64,
            })?;
            return Ok(true);
        }
        if word == "default" {
            self.add(CoreItem::Default { line })?;
            return Ok(true);
        }
        self.read_jump(word)
    }

    fn read_jump(&mut self, word: &str) -> Result<bool, Unread> {
        let line = self.line;
        if let Some(text) = word.strip_prefix("label:") {
            let label = number(text)?;
            self.add(CoreItem::Label { label })?;
            return Ok(true);
        }
        if let Some(text) = word.strip_prefix("goto:") {
            let label = number(text)?;
            self.add_statement(CoreStatement::Goto { line, label })?;
            return Ok(true);
        }
        self.read_initializer(word)
    }

    fn read_initializer(&mut self, word: &str) -> Result<bool, Unread> {
        if let Some(name) = word.strip_suffix(":=") {
            self.initialize(name, false)?;
            return Ok(true);
        }
        if let Some(name) = word.strip_suffix(":=?") {
            self.initialize(name, true)?;
            return Ok(true);
        }
        if let Some(name) = word.strip_suffix("@=") {
            let variable = self.variable(name).ok_or(Unread::Word)?;
            let value = self.pop_structure()?;
            self.add(CoreItem::InitializeStructure {
                line: self.line,
                variable,
                drawn: false,
                value,
            })?;
            return Ok(true);
        }
        Ok(false)
    }

    fn initialize(&mut self, name: &str, drawn: bool) -> Result<(), Unread> {
        let variable = self.variable(name).ok_or(Unread::Word)?;
        let value = self.pop()?;
        self.add(CoreItem::Initialize {
            line: self.line,
            variable,
            drawn,
            value,
        })
    }
}
