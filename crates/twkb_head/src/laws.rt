//! Laws of the definitions. The functions do nothing; their contracts are the laws, and are proved.
ghost use Rattle.std.specs.Prelude.{◌≡◌};
ghost use Rattle.twkb_head.specs.BegunHeader.{deepest};
ghost use Rattle.twkb_head.specs.declared.kinds.TheConstants.{DEEPEST};
ghost use Rattle.twkb_head.specs.Laws.{AllowedUnderGreater, BegunUnderGreater, OneHeader};

/// The constant [`DEEPEST`](crate::DEEPEST) is the limit that the definitions state as a number of their own.
pub fn deepest_level_is_the_limit()
    ensures { DEEPEST ≡ deepest }
{}

/// The limit of depth may be raised: what is allowed under a limit is allowed under any greater one, and a begun header is begun
/// under it too.
pub fn limits_may_be_raised()
    ensures allowed { AllowedUnderGreater }
    ensures begun { BegunUnderGreater }
{}

/// A sequence of bytes begins with at most one header, and this header ends at only one place.
pub fn headers_are_unique()
    ensures { OneHeader }
{}
