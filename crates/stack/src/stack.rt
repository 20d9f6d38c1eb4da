ghost use Rattle.std.specs.Prelude.{◌≡◌, ◌+◌, ◌-◌, ◌<◌, ◌≤◌, ◌∷◌, length, IfNone, IfSome, OnOk, slice_index_or, slice_set};
ghost use Rattle.ruling.specs.Checks.{Answers, Kept};
ghost use Rattle.stack.specs.Stacks.{live, full_fault, Popped};

use ruling::Refusal;

// Writes a value into one slot.
fn put<V: Copy>(slots: &mut [V], at: usize, value: V)
    requires { at < length slots.old }
    ensures { slots.new ≡ slice_set slots.old at value }
{
    slots[at] = value;
}

// A stack of values in slots that the caller lends; the first `len` slots hold the values, the top last.
#[derive(Drop)]
pub struct Stack<'a, V> {
    slots: &'a mut [V],
    len: usize,
    ghost fits: { len ≤ length slots.now },
}

impl<'a, V: Copy> Stack<'a, V> {
    pub fn new(slots: &'a mut [V]) -> Stack<'a, V>
        ensures len { result.len ≡ 0 }
        ensures slots { result.slots.now ≡ slots.old }
    {
        Stack { slots, len: 0 }
    }

    // Puts a value on top; a full stack refuses it: 13, the slots needed.
    pub fn push(&mut self, value: V) -> Result<(), Refusal>
        ensures answer { Answers (full_fault self.old.len (length self.old.slots.now)) (λ _. live self.new.len self.new.slots.now ≡ value ∷ live self.old.len self.old.slots.now) result }
        ensures len { Kept result self.old.len self.new.len }
        ensures slots { Kept result self.old.slots.now self.new.slots.now }
        ensures room { length self.new.slots.now ≡ length self.old.slots.now }
        ensures written { OnOk result ((self.new.len ≡ self.old.len + 1) × (self.new.slots.now ≡ slice_set self.old.slots.now self.old.len value)) }
    {
        if self.len == self.slots.len() {
            return Err(Refusal::BufferTooShort(self.len.saturating_add(1)));
        }
        put(self.slots, self.len, value);
        self.len += 1;
        Ok(())
    }

    // The top value; none where the stack is empty.
    fn top(&self) -> Option<V>
        ensures none { IfNone result (self.now.len ≡ 0) }
        ensures value { IfSome result (λ v. (0 < self.now.len) × (slice_index_or self.now.slots.now (self.now.len - 1) v ≡ v)) }
    {
        self.slots[..self.len].last().copied()
    }

    // Takes the top value off; none where the stack is empty.
    pub fn pop(&mut self) -> Option<V>
        ensures answer { Popped (live self.old.len self.old.slots.now) (live self.new.len self.new.slots.now) result }
        ensures slots { self.new.slots.now ≡ self.old.slots.now }
    {
        let value = self.top()?;
        self.len -= 1;
        Some(value)
    }
}
