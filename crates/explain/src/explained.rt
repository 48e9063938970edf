//! The one case that holds of a wish after the last day of a campaign.
ghost use Rattle.std.specs.Prelude.{◌≡◌, ◌<◌, length, IsTrue};
ghost use Rattle.day_run.specs.CampaignDays.{pass_of};
ghost use Rattle.desk_day.specs.LastPasses.{IsOfDossier};
ghost use Rattle.explanations.specs.Sayings.{Explains};

use admit_core::Explanation;
use day_run::Campaign;
use explanations::{Closing, explained};

/// The one case that says why the wish at a place stands as it does in the evening of a campaign's
/// last day. That day must have come about.
pub fn explain(campaign: &Campaign<'_>, wish: u32) -> Explanation
    requires day { IsTrue campaign.now.course.has_day }
    requires wish { wish < length campaign.now.course.present.dossier.wishes }
    ensures { Explains (pass_of campaign.now.course) campaign.now.course.present wish result }
{
    let _ = campaign.has_day(); // what its last day left
    let last = closing_of(campaign);
    explained(campaign.state(), &last, wish)
}

/// The pass that a campaign's last day closed with.
fn closing_of<'p, 'd>(campaign: &'p Campaign<'d>) -> Closing<'p, 'd>
    requires { IsOfDossier (pass_of campaign.now.course) }
    ensures { result ≡ pass_of campaign.now.course }
{
    Closing {
        opening: campaign.opening(),
        orders: campaign.orders(),
        ceilings: campaign.ceilings(),
        bars: campaign.bars(),
    }
}
