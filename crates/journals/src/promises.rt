// What is promised of journals as such, as the contract of a function each.
ghost use Rattle.journals.specs.Journal.{ReadsBack};

// The file that is laid out for entries and fences gives back these entries, these fences and the space behind them:
// laying out and reading back are inverse, for whatever fits into a file.
pub fn journals_read_back()
    ensures { ReadsBack }
{}
