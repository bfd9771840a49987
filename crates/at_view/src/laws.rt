//! What is true of the words of every table. Each function does nothing: its contract is the law.
ghost use Rattle.at_view.specs.Words.{AllAreApart, AllAreInside};

/// The words of the table, by name, stand in it, and no two have one number.
pub fn words_are_apart()
    ensures inside { AllAreInside }
    ensures apart { AllAreApart }
{}
