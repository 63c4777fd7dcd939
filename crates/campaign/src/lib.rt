//! The law over whole campaigns: a call of `program` or `begin`, and then calls of `resume` and `revert` that continue its job. Each call
//! may be stopped at any moment. The law knows the body of a job as a list of bytes, and no instruction, plan or format.
#![tactic(auto)]

ghost use Rattle.campaign.specs.Campaign.{Campaign, IsCampaign, IsSafeCampaign};

/// A campaign. It is a trait because a ghost member can speak of each bench's history, and a clause can't.
pub trait History {
    ghost campaign: { Campaign };
}

/// In every campaign, each pair of a file and cells that a stop leaves is untouched, whole or finished, with the one job of the first call.
/// Each later call that answers 0 leaves its goal.
pub fn campaigns_are_safe<H: History>()
    ensures { IsCampaign H.campaign → IsSafeCampaign H.campaign }
{}
