ghost use Rattle.law_promise.specs.Domain.{Domain, IsSound, IsCovered};
ghost use Rattle.law_promise.specs.Outline.{Outline, IsShown};
ghost use Rattle.law_promise.specs.Found.{IsCoveredFrom, IsKeptFrom};
ghost use Rattle.law_promise.specs.Kept.{IsKept};

/// An application whose writer has shown an outline of it.
pub trait Promise {
    /// What is counted of it.
    ghost Event: { Type 0 };

    /// Its outline.
    ghost outline: { Outline Event };

    /// Each part of it, shown.
    ghost shown: { IsShown outline };
}

/// An abstract domain of an application, which covers what each of its instructions leads to.
pub trait Analysis {
    /// What is counted of it.
    ghost Event: { Type 0 };

    /// What the domain says of each moment and each place.
    ghost domain: { Domain Event };

    /// Each part of it, shown.
    ghost sound: { IsSound domain };
}

/// What an outline says holds along every play, from a history that the first card begins with: it has none of the name,
/// or the application, with static bytes that keep this history.
pub fn keeps_from<P: Promise>()
    ensures { IsKeptFrom P.outline }
{}

/// What an outline says holds along every play that begins with a card that has none of the name, with no history.
pub fn keeps<P: Promise>()
    ensures { IsKept P.outline }
{}

/// What a domain covers is so along every play, as long as stops come at device writes, from a first card that it covers
/// after a history.
pub fn covers_from<D: Analysis>()
    ensures { IsCoveredFrom D.domain }
{}

/// What a domain covers is so along every play that begins with a card that has none of the name, as long as stops come
/// at device writes.
pub fn covers<D: Analysis>()
    ensures { IsCovered D.domain }
{}
