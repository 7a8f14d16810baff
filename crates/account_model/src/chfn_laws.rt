//! A law of the parts of a comment (chfn(1)).
ghost use Rattle.account_model.specs.ChfnLaws.{ChfnKeepsParts};

/// After chfn the parts of the user's comment that no option names are as before, and each of the
/// others is the value of its option, whatever the comment was.
pub fn chfn_keeps_parts()
    ensures { ChfnKeepsParts }
{}
