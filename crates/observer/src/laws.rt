//! What holds of observers.

ghost use Rattle.observer.specs.Laws.{BooksGoOn, ShownStaysTrue, TopsNeverFall};

/// A sound observer stays sound as the book goes on, and what was shown truly stays true. A
/// finished copy never has fewer updates than before.
pub fn observer_laws()
    ensures grown { BooksGoOn }
    ensures shown { ShownStaysTrue }
    ensures tops { TopsNeverFall }
{}
