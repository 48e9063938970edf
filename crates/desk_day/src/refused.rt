//! Why a day for which memory ran out does not come about.
ghost use Rattle.std.specs.Prelude.{◌≡◌};
ghost use Rattle.std.specs.Option.{option_copied};
ghost use Rattle.admit_core.specs.Days.{unfit_on};
ghost use Rattle.admit_core.specs.Lapses.{AreTermsFor};
ghost use Rattle.desk_day.specs.AnswersOn.{IsUnfitOf};

use crate::desk::Desk;
use crate::refusal::DayRefusal;
use crate::running::Running;
use crate::who::{Who, take_over};
use admit_core::Terms;

impl Running<'_> {
    /// Tries the morning of the day on the present state, which may be left in its midst.
    fn find_refusal(&mut self, terms: Option<&Terms>, day: u32) -> DayRefusal
        requires { AreTermsFor self.old.present.dossier (option_copied terms) }
        ensures refusal { IsUnfitOf self.old.present.dossier day
            (unfit_on (option_copied terms.entry) day self.old.present) result }
        ensures opening { self.new.opening ≡ self.old.opening }
        ensures dossier { self.new.present.dossier ≡ self.old.present.dossier }
    {
        self.moved = Who::Anyone;
        self.present.find_refusal(terms, day)
    }
}

impl Desk<'_> {
    /// Why a day for which memory ran out does not come about: its first answer that does not fit,
    /// and want of memory only where each fits. The state stays as it is.
    pub fn refused(&mut self, terms: Option<&Terms>, day: u32) -> DayRefusal
        requires { AreTermsFor self.old.present.dossier (option_copied terms) }
        ensures refusal { IsUnfitOf self.old.present.dossier day
            (unfit_on (option_copied terms.entry) day self.old.present) result }
        ensures present { self.new.present ≡ self.old.present }
        ensures evening { self.new.evening ≡ self.old.present }
        ensures opening { self.new.opening ≡ self.old.opening }
    {
        take_over(&mut self.evening, self.running.now(), &self.moved);
        let refusal = self.running.find_refusal(terms, day);
        self.running.restore(&self.evening);
        refusal
    }
}
