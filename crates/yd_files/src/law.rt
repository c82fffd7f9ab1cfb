//! The laws of files, each the contract of an empty function.

ghost use Rattle.yd_files.specs.Law.{FilesAreJudged, WordsNameFiles};

/// Every file, of any kind, is accepted as what it stands for, refused for one fault, too large or
/// missing; and of files that are not all accepted there is one first.
pub fn files_are_judged()
    ensures { FilesAreJudged }
{}

/// Words name one list of files at most.
pub fn words_name_files()
    ensures { WordsNameFiles }
{}
