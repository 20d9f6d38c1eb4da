ghost use Rattle.std.specs.Prelude.{◌≡◌, ◌<◌};
ghost use Rattle.reduction.specs.Dividing.{IsContext, stepped, class_key, Even};
ghost use Rattle.reduction.specs.Divisions.{meant_by, Finer};

use super::context::Context;
use super::division::Division;
use super::keys::read_keys;
use super::questions::target_of;
use ruling::Ruling;

impl Context {
    // Where a state leads in this context.
    fn onward<R: Ruling>(self, ruling: &R, state: u16) -> u16
        requires context { IsContext (R.Ruling.meaning ruling.now).plain self }
        requires state { state < (R.Ruling.meaning ruling.now).plain.states }
        ensures { result ≡ stepped (R.Ruling.meaning ruling.now).plain self state }
    {
        match self {
            Context::Under { kind } => target_of(ruling, kind, state, 0),
            Context::Left { kind, brother } => target_of(ruling, kind, state, brother),
            Context::Right { kind, brother } => target_of(ruling, kind, brother, state),
        }
    }
}

impl<'a, R: Ruling> Division<'a, R> {
    // Divides every class by where its members lead in a context; all keys are read before any class is written.
    pub(super) fn sweep(&mut self, context: Context)
        requires { IsContext (meant_by self.old) context }
        ensures { Finer self.old self.new (λ class leader. Even (meant_by self.old) class context) }
    {
        let before = self.partition.count();
        let ruling = self.ruling;
        let class = &self.partition.class;
        read_keys(
            &self.live,
            |state| -> u16
                requires context { IsContext (R.Ruling.meaning ruling.now).plain context }
                requires state { state < (R.Ruling.meaning ruling.now).plain.states }
                ensures { result ≡ class_key (R.Ruling.meaning ruling.entry.now).plain class.entry.now context state }
            { class[context.onward(ruling, state) as usize] },
            &mut self.keys,
        );
        self.partition.split(&self.live, &self.keys);
        if self.partition.count() != before {
            self.live.refresh(&self.partition, &mut self.shared);
        }
    }
}
