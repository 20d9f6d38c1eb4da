ghost use Rattle.std.specs.Prelude.{◌≡◌, is_ok, IfOk, if◌then◌else◌, None, MatchOption};
ghost use Rattle.std.specs.Fn.{FnOnceReturnsAt};
ghost use Rattle.table.specs.declared.flat_table.FlatTable.{FlatTable};
ghost use Rattle.table.specs.TableFiles.{table_fault};
ghost use Rattle.script.specs.Calls.{order_in, line_says};
ghost use Rattle.session.specs.Sessions.{file_in, table_answer, table_kept, answer_to, kept_after, line_answer, line_kept};

use super::kept::KeptTable;
use super::questions::{ask_judge, ask_mark, ask_measure, ask_rank, ask_target};
use super::session::Session;
use ruling::Ruling;
use script::{Answer, Call, Line, read_line};
use std::alloc::{AllocError, Global};
use table::{FlatTable, check_table};

impl Session {
    // A session that keeps no table yet.
    pub fn new() -> Session
        ensures { file_in result ≡ None }
    {
        Session { kept: None }
    }

    // Keeps a table file, once it passes its check.
    fn keep(&mut self, bytes: Vec<u8>) -> Answer
        ensures answer { result ≡ table_answer bytes.items (table_fault bytes.items) }
        ensures kept { file_in self.new ≡ table_kept (file_in self.old) bytes.items (table_fault bytes.items) }
    {
        match check_table(bytes.as_slice()) {
            Ok(states) => {
                self.kept = Some(KeptTable { bytes, states });
                Answer::Kept(states)
            }
            Err(refusal) => Answer::Refused(refusal),
        }
    }

    // What the kept table answers to a question; it is no call where no table is kept.
    fn ask<F: FnOnce(&FlatTable<'_>) -> Result<Answer, AllocError>>(
        &self,
        question: F,
    ) -> Result<Answer, AllocError>
        requires { F.IsAlwaysCallable question }
        ensures { MatchOption (file_in self.now) (result ≡ Ok Answer.NoCall) (λ f. (t : FlatTable) × (t.bytes.now ≡ f) × FnOnceReturnsAt F.FnOnce question t result) }
    {
        match &self.kept {
            Some(table) => question(&table.flat()),
            None => Ok(Answer::NoCall),
        }
    }

    // Makes a call. It fails only for want of memory, and then nothing changes.
    pub fn serve(&mut self, heap: Global, call: Call) -> Result<Answer, AllocError>
        ensures answer { IfOk result (λ a. a ≡ answer_to (file_in self.old) (order_in call)) }
        ensures kept { file_in self.new ≡ (if is_ok result then kept_after (file_in self.old) (order_in call) else file_in self.old) }
    {
        match call {
            Call::Table(bytes) => Ok(self.keep(bytes)),
            Call::Judge(bytes, room) => {
                self.ask(|table| ask_judge(heap, table, bytes.as_slice(), room))
            }
            Call::Measure(bytes, room) => {
                self.ask(|table| ask_measure(heap, table, bytes.as_slice(), room))
            }
            Call::States => self.ask(|table| Ok(Answer::Number(table.states()))),
            Call::Rank(kind) => self.ask(|table| Ok(ask_rank(table, kind))),
            Call::Target(kind, a, b) => self.ask(|table| Ok(ask_target(table, kind, a, b))),
            Call::Mark(state) => self.ask(|table| Ok(ask_mark(table, state))),
        }
    }

    // Answers a line; nothing where it says nothing. It fails only for want of memory, and then nothing changes.
    pub fn respond(&mut self, heap: Global, line: &[u8]) -> Result<Option<Answer>, AllocError>
        ensures answer { IfOk result (λ a. a ≡ line_answer (file_in self.old) (line_says line.now)) }
        ensures kept { file_in self.new ≡ (if is_ok result then line_kept (file_in self.old) (line_says line.now) else file_in self.old) }
    {
        match read_line(heap, line)? {
            Line::Blank => Ok(None),
            Line::NoCall => Ok(Some(Answer::NoCall)),
            Line::Call(call) => self.serve(heap, call).map(Some),
        }
    }
}
