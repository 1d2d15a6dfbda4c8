//! Laws of reading the same bits again. A law is a function that does nothing; its contract states it.
ghost use Rattle.vx_table.specs.laws.Again.{FollowsAgain, ReadsAgain, StopsAgain, AnswersAgain, TablesShow, SectionsShow};

/// If two forms are alike and all their fields are shown, then values that follow the one follow the other. The items and
/// bits are the same, and the ends agree.
pub fn follows_again()
    ensures { FollowsAgain }
{}

/// If bits code values of one of two such forms, then they code them for the other, and so do bits up to a field.
pub fn reads_again()
    ensures values { ReadsAgain }
    ensures fronts { StopsAgain }
{}

/// If two such forms read the same bits, then a reader's whole answer is the same: the same items and rest, or the same
/// refusal.
pub fn answers_again()
    ensures { AnswersAgain }
{}

/// If each row of tables passes the test, then all their fields are shown.
pub fn tables_show()
    ensures table { TablesShow }
    ensures sections { SectionsShow }
{}
