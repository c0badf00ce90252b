// The round trip from code to its listing and back.
ghost use Rattle.mc_asm.specs.RoundTrip.{ListedIsAssembled};

/// The listing of code assembles to that code.
pub fn a_listing_is_assembled()
    ensures { ListedIsAssembled }
{}
