//! The laws of the layers below, in one.

ghost use Rattle.plan_claims.specs.Below.{LawsBelow};

pub(crate) fn below()
    ensures { LawsBelow }
{
    segment_merge::laws::all();
    sp_terms::laws::terms_law();
    cut_laws::laws::stands_law();
    cut_laws::laws::par_law();
    sp_cuts::laws::without_names();
}
