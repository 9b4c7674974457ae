//! Renames computed on small trees: each case in its order, and what a rename leaves.
ghost use Rattle.std.specs.Prelude.{◌≡◌, ◌∷◌, ◌++◌, [], codes};
ghost use Rattle.worked_history.specs.Trees.{answers_to};

/// Why a rename is refused, where two reasons hold: the first counts.
pub fn renames_refused()
    ensures nothing_there { answers_to (codes "as 5 5\nrename /z /x\nrename / /x\n") ≡ codes "1 ok\n2 noent\n3 denied\n" }
    // A directory onto a file, also where the caller lacks a right.
    ensures onto_a_file { answers_to (codes "mkdir /d 755\ncreate /a 644\nrename /d /a\nas 5 5\nrename /d /a\n") ≡ codes "1 ok\n2 ok\n3 notdir\n4 ok\n5 notdir\n" }
    // The right to write is needed on both directories, also for two names of one inode.
    ensures without_right { answers_to (codes "create /a 644\nlink /a /b\nas 5 5\nrename /a /b\n") ≡ codes "1 ok\n2 ok\n3 ok\n4 denied\n" }
    ensures from_where { answers_to (codes "mkdir /d 755\nmkdir /e 777\ncreate /d/a 644\ncreate /e/a 644\nas 5 5\nrename /d/a /e/b\nrename /e/a /d/b\nrename /e/a /e/b\n")
        ≡ codes "1 ok\n2 ok\n3 ok\n4 ok\n5 ok\n6 denied\n7 denied\n8 ok\n" }
    // Two names of one inode stay, also where the directory isn't empty, but not where the last part is `.` or `..`.
    ensures one_inode { answers_to (codes "create /a 644\nlink /a /b\nrename /a /b\nstat /a\nstat /b\nmkdir /d 755\nmkdir /d/e 755\nrename /d /d\nrename /d/e/. /d/e\nrename /d/e/.. /d\nlist /d\n")
        ≡ codes "1 ok\n2 ok\n3 ok\n4 ok 3 file 644 2 0 0 0 1000 0\n5 ok 3 file 644 2 0 0 0 1000 0\n6 ok\n7 ok\n8 ok\n9 inval\n10 notempty\n11 ok 1 end e\n" }
    // A file onto a directory, also where that isn't empty.
    ensures onto_a_directory { answers_to (codes "mkdir /d 755\ncreate /a 644\nrename /a /d\ncreate /d/f 644\nrename /a /d\nrename /a /d/.\n")
        ≡ codes "1 ok\n2 ok\n3 isdir\n4 ok\n5 isdir\n6 isdir\n" }
    // A directory onto one that isn't empty, also where it stands above that.
    ensures not_empty { answers_to (codes "mkdir /d 755\nmkdir /e 755\nmkdir /e/g 755\nmkdir /e/g/h 755\nrename /d /e\nrename /e /e/g\nrename /d/. /e\n")
        ≡ codes "1 ok\n2 ok\n3 ok\n4 ok\n5 notempty\n6 notempty\n7 notempty\n" }
    ensures into_itself { answers_to (codes "mkdir /d 755\nmkdir /d/e 755\nrename /d /d/e/x\nrename /d /d/e\nrename /d /d\nrename /d/e/. /x\nrename / /d/x\nlist /d\n")
        ≡ codes "1 ok\n2 ok\n3 inval\n4 inval\n5 ok\n6 inval\n7 inval\n8 ok 1 end e\n" }
{}

/// What a rename leaves: names, links, blocks and inodes.
pub fn renames_done()
    ensures file { answers_to (codes "create /a 644\nmkdir /d 755\nrename /a /d/b\nlist /\nlist /d\nstat /d/b\n")
        ≡ codes "1 ok\n2 ok\n3 ok\n4 ok 1 end d\n5 ok 1 end b\n6 ok 3 file 644 1 0 0 0 1000 0\n" }
    ensures replaced_file { answers_to (codes "create /a 644\ncreate /b 644\nwrite /b 0 61\nrename /a /b\nlist /\nstat /b\ndf\n")
        ≡ codes "1 ok\n2 ok\n3 ok\n4 ok\n5 ok 1 end b\n6 ok 3 file 644 1 0 0 0 1000 0\n7 ok 61 28\n" }
    // Of two names only the replaced one goes.
    ensures replaced_name { answers_to (codes "create /a 644\ncreate /b 644\nlink /b /c\nrename /a /b\nstat /c\nstat /b\ndf\n")
        ≡ codes "1 ok\n2 ok\n3 ok\n4 ok\n5 ok 4 file 644 1 0 0 0 1000 0\n6 ok 3 file 644 1 0 0 0 1000 0\n7 ok 61 27\n" }
    ensures moved_directory { answers_to (codes "mkdir /d 755\nmkdir /e 755\nmkdir /e/x 755\nrename /d /e/d\nstat /\nstat /e\nstat /e/d/..\nlist /e\n")
        ≡ codes "1 ok\n2 ok\n3 ok\n4 ok\n5 ok 2 dir 755 3 0 0 512 1000 1\n6 ok 4 dir 755 4 0 0 512 1000 1\n7 ok 4 dir 755 4 0 0 512 1000 1\n8 ok 2 end d x\n" }
    ensures replaced_directory { answers_to (codes "mkdir /d 755\nmkdir /e 755\nrename /d /e\nstat /\nlist /\nstat /e\ndf\n")
        ≡ codes "1 ok\n2 ok\n3 ok\n4 ok 2 dir 755 3 0 0 512 1000 1\n5 ok 1 end e\n6 ok 3 dir 755 2 0 0 512 1000 1\n7 ok 60 28\n" }
    ensures replaced_below { answers_to (codes "mkdir /d 755\nmkdir /e 755\nmkdir /e/x 755\nrename /d /e/x\nstat /\nstat /e\nstat /e/x/..\ndf\n")
        ≡ codes "1 ok\n2 ok\n3 ok\n4 ok\n5 ok 2 dir 755 3 0 0 512 1000 1\n6 ok 4 dir 755 3 0 0 512 1000 1\n7 ok 4 dir 755 3 0 0 512 1000 1\n8 ok 59 27\n" }
    ensures symbolic_link { answers_to (codes "symlink /x /l\nrename /l /m\nreadlink /m\nlstat /l\n") ≡ codes "1 ok\n2 ok\n3 ok /x\n4 noent\n" }
{}
