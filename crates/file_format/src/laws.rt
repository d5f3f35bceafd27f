// What holds of every file. Each of these functions answers nothing: its contract is the law.
ghost use Rattle.file_format.specs.Laws.{RightOrOneFault, RightIsTheFile, FileIsRight, SameGradesSameBytes};

pub fn right_or_one_fault()
    ensures { RightOrOneFault }
{}

pub fn right_is_the_file()
    ensures { RightIsTheFile }
{}

pub fn file_is_right()
    ensures { FileIsRight }
{}

pub fn same_grades_same_bytes()
    ensures { SameGradesSameBytes }
{}
