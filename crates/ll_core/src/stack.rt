ghost use Rattle.std.specs.Prelude.{◌≡◌, ◌∷◌, [], reverse, OnOk};
ghost use Rattle.ll_core.specs.Stack.{tasks};
ghost use Rattle.ll_core.specs.declared.stack.Task.TheVariants.{Close as CloseTask};

use crate::trace::Trace;
use crate::{Event, Grammar, ParseFault, Symbol};
use linker_base::NoMemory;
use std::alloc::Global;

/// What a parser has still to do.
#[derive(Clone, Copy, Debug, PartialEq, Eq)]
pub enum Task {
    /// To shift a token of this kind.
    Match(u16),
    /// To open a production of this inner symbol.
    Expand(u16),
    /// To close a production.
    Close,
}

fn task_of(symbol: Symbol) -> Task
    ensures { tasks (symbol ∷ []) [] ≡ result ∷ [] }
{
    match symbol {
        Symbol::Terminal(k) => Task::Match(k),
        Symbol::Inner(a) => Task::Expand(a),
    }
}

/// Puts a right side on the stack, its first symbol on top, and under it the task to close.
fn push_right(stack: &mut Vec<Task>, right: &[Symbol]) -> Result<(), NoMemory>
    ensures { OnOk result
        (reverse stack.new.items ≡ tasks right.now (CloseTask ∷ reverse stack.old.items)) }
{
    stack.push(Task::Close)?;
    let mut left = right.len();
    while left > 0 {
        left -= 1;
        stack.push(task_of(right[left]))?;
    }
    Ok(())
}

/// What a parser has still to do, the last task first, and what it told and took. Its steps are done in
/// the caller's loop, which halves their time.
#[derive(Drop)]
pub struct Work {
    pub stack: Vec<Task>,
    pub trace: Trace,
}

impl Work {
    ghost use Rattle.std.specs.Prelude.{Some, None, IfOk};
    ghost use Rattle.ll_core.specs.declared.stack.Task.TheVariants.{Match, Expand, Close as Closing};
    ghost use Rattle.ll_core.specs.Checked.{IsChecked};
    ghost use Rattle.ll_core.specs.Table.{table_of};
    ghost use Rattle.ll_core.specs.Step.{StandsAt, Stepped, IsExact};

    /// The lists at the start of a text.
    pub fn new(alloc: Global, start: u16) -> Result<Work, NoMemory>
        ensures stack { IfOk result (λ w. reverse w.stack.items ≡ Expand start ∷ []) }
        ensures given { IfOk result (λ w. w.trace.given ≡ []) }
        ensures shifted { IfOk result (λ w. w.trace.shifted ≡ []) }
    {
        let mut stack = Vec::new(alloc);
        stack.push(Task::Expand(start))?;
        Ok(Work {
            stack,
            trace: Trace::new(),
        })
    }

    /// Where the stack is empty.
    #[inline(always)]
    fn finish(&mut self, grammar: &Grammar, look: Option<u16>) -> Result<Event, ParseFault>
        requires checked { IsChecked (table_of grammar.now) }
        requires empty { self.old.stack.items ≡ [] }
        requires at { StandsAt (table_of grammar.now) look [] self.old }
        ensures { Stepped (table_of grammar.now) look [] self.old self.new result }
    {
        match look {
            None => Ok(Event::End),
            Some(_) => Err(ParseFault::Syntax),
        }
    }

    /// Where this terminal was on top of the stack.
    #[inline(always)]
    fn shift(
        &mut self,
        grammar: &Grammar,
        terminal: u16,
        look: Option<u16>,
    ) -> Result<Event, ParseFault>
        requires checked { IsChecked (table_of grammar.now) }
        requires at { StandsAt (table_of grammar.now) look
            (Match terminal ∷ reverse self.old.stack.items) self.old }
        ensures { Stepped (table_of grammar.now) look
            (Match terminal ∷ reverse self.old.stack.items) self.old self.new result }
    {
        let Some(token) = look else {
            return Err(ParseFault::Syntax);
        };
        if token != terminal {
            return Err(ParseFault::Syntax);
        }
        self.trace = self.trace.told(&Event::Shift).took(&token);
        Ok(Event::Shift)
    }

    /// Where the end of a production was on top of the stack.
    #[inline(always)]
    fn close(&mut self, grammar: &Grammar, look: Option<u16>) -> Result<Event, ParseFault>
        requires checked { IsChecked (table_of grammar.now) }
        requires at { StandsAt (table_of grammar.now) look
            (Closing ∷ reverse self.old.stack.items) self.old }
        ensures { Stepped (table_of grammar.now) look (Closing ∷ reverse self.old.stack.items)
            self.old self.new result }
    {
        self.trace = self.trace.told(&Event::Close);
        Ok(Event::Close)
    }

    /// Where this symbol was on top of the stack.
    #[inline(always)]
    fn open(
        &mut self,
        grammar: &Grammar,
        symbol: u16,
        look: Option<u16>,
    ) -> Result<Event, ParseFault>
        requires checked { IsChecked (table_of grammar.now) }
        requires at { StandsAt (table_of grammar.now) look
            (Expand symbol ∷ reverse self.old.stack.items) self.old }
        ensures { Stepped (table_of grammar.now) look
            (Expand symbol ∷ reverse self.old.stack.items) self.old self.new result }
    {
        let code = look.unwrap_or(u16::MAX);
        let Some(number) = grammar.predicted_for(symbol, code) else {
            return Err(ParseFault::Syntax);
        };
        match push_right(&mut self.stack, grammar.right_side(number)) {
            Ok(()) => {
                self.trace = self.trace.told(&Event::Open(number));
                Ok(Event::Open(number))
            }
            Err(_) => Err(ParseFault::NoMemory),
        }
    }

    /// Does the task on top of the stack.
    #[inline(always)]
    fn do_task(&mut self, grammar: &Grammar, look: Option<u16>) -> Result<Event, ParseFault>
        requires checked { IsChecked (table_of grammar.now) }
        requires at { StandsAt (table_of grammar.now) look (reverse self.old.stack.items) self.old }
        ensures { Stepped (table_of grammar.now) look (reverse self.old.stack.items) self.old
            self.new result }
    {
        match self.stack.pop() {
            None => self.finish(grammar, look),
            Some(Task::Match(terminal)) => self.shift(grammar, terminal, look),
            Some(Task::Expand(symbol)) => self.open(grammar, symbol, look),
            Some(Task::Close) => self.close(grammar, look),
        }
    }

    /// The next event, with all that callers may know of it.
    #[inline(always)]
    pub fn step(&mut self, grammar: &Grammar, look: Option<u16>) -> Result<Event, ParseFault>
        requires checked { IsChecked (table_of grammar.now) }
        requires at { StandsAt (table_of grammar.now) look (reverse self.old.stack.items) self.old }
        ensures stepped { Stepped (table_of grammar.now) look (reverse self.old.stack.items)
            self.old self.new result }
        ensures exact { IsExact (table_of grammar.now) self.old.trace.given
            self.old.trace.shifted look
            self.new.trace.given result }
    {
        self.do_task(grammar, look)
    }
}
