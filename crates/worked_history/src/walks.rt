//! Walks computed on small trees: parts, rights, links, and which refusal comes first.
ghost use Rattle.std.specs.Prelude.{◌≡◌, ◌∷◌, ◌++◌, [], codes, replicate};
ghost use Rattle.worked_history.specs.Trees.{answers_to, longest};

/// Empty parts don't count, and a part after one that is no directory is refused.
pub fn parts_of_paths()
    ensures slashes { answers_to (codes "mkdir /d 755\ncreate //d///f 644\nstat /d/f/\nstat /../..//\nlist //d/.\n")
        ≡ codes "1 ok\n2 ok\n3 ok 4 file 644 1 0 0 0 1000 0\n4 ok 2 dir 755 3 0 0 512 1000 1\n5 ok 1 end f\n" }
    ensures no_directory { answers_to (codes "create /f 644\nstat /f/x\nstat /f/.\ncreate /f/x 644\nstat /x/y\ncreate /x/y 644\n")
        ≡ codes "1 ok\n2 notdir\n3 notdir\n4 notdir\n5 noent\n6 noent\n" }
{}

/// The right to search is needed on each directory that a part is looked up in, and none to be told of an inode.
pub fn rights_on_the_way()
    ensures search { answers_to (codes "mkdir /d 766\ncreate /d/f 644\nas 5 5\nstat /d/f\nstat /d\nlist /d\n")
        ≡ codes "1 ok\n2 ok\n3 ok\n4 denied\n5 ok 3 dir 766 2 0 0 512 1000 1\n6 ok 1 end f\n" }
    ensures classes { answers_to (codes "mkdir /d 710\ncreate /d/a 640\nchown /d 5 6\nchown /d/a 5 6\nas 7 6\nread /d/a 0 1\nwrite /d/a 0 61\nlist /d\nas 7 7\nread /d/a 0 1\nas 5 7\nwrite /d/a 0 61\nlist /d\nas 0 0\nchmod /d/a 077\nas 5 6\nread /d/a 0 1\n")
        ≡ codes "1 ok\n2 ok\n3 ok\n4 ok\n5 ok\n6 ok -\n7 denied\n8 denied\n9 ok\n10 denied\n11 ok\n12 ok\n13 ok 1 end a\n14 ok\n15 ok\n16 ok\n17 denied\n" }
{}

/// A link in the middle is followed, and one at the end where the call follows it.
pub fn links_on_the_way()
    ensures followed { answers_to (codes "mkdir /d 755\ncreate /d/f 644\nsymlink f /d/l\nsymlink d /m\nstat /m/l\nlstat /m/l\nlstat /m\nlstat /m/\nstat /m\ncreate /m/g 644\nlist /d\n")
        ≡ codes "1 ok\n2 ok\n3 ok\n4 ok\n5 ok 4 file 644 1 0 0 0 1000 0\n6 ok 5 link 777 1 0 0 1 1000 1\n7 ok 6 link 777 1 0 0 1 1000 1\n8 ok 6 link 777 1 0 0 1 1000 1\n9 ok 3 dir 755 2 0 0 512 1000 1\n10 ok\n11 ok 3 end f g l\n" }
    ensures from_the_root { answers_to (codes "mkdir /d 755\nmkdir /d/e 755\nsymlink / /d/e/r\nsymlink .. /d/e/u\nstat /d/e/r/d\nstat /d/e/u\nstat /d/e/r\n")
        ≡ codes "1 ok\n2 ok\n3 ok\n4 ok\n5 ok 3 dir 755 3 0 0 512 1000 1\n6 ok 3 dir 755 3 0 0 512 1000 1\n7 ok 2 dir 755 3 0 0 512 1000 1\n" }
    ensures to_a_file { answers_to (codes "create /f 600\nsymlink f /k\nstat /k/x\nchmod /k 644\nstat /f\ntrunc /k 1\nread /k 0 2\nsymlink x /n\nwrite /n 0 61\nchmod /n 600\n")
        ≡ codes "1 ok\n2 ok\n3 notdir\n4 ok\n5 ok 3 file 644 1 0 0 0 1000 0\n6 ok\n7 ok 00\n8 ok\n9 noent\n10 noent\n" }
    // Eight links are followed on one walk, and the ninth isn't.
    ensures eight { answers_to (codes "create /z 644\nsymlink z /a\nsymlink a /b\nsymlink b /c\nsymlink c /d\nsymlink d /e\nsymlink e /f\nsymlink f /g\nsymlink g /h\nsymlink h /i\nread /h 0 1\nread /i 0 1\n")
        ≡ codes "1 ok\n2 ok\n3 ok\n4 ok\n5 ok\n6 ok\n7 ok\n8 ok\n9 ok\n10 ok\n11 ok -\n12 loop\n" }
{}

/// Of what stops a walk the first counts: no directory, no right, a long name; and a long word stops it before it begins.
pub fn long_names_on_the_way()
    ensures in_a_file_without_right { answers_to (codes "create /f 600\nas 5 5\nstat /f/x\n") ≡ codes "1 ok\n2 ok\n3 notdir\n" }
    ensures in_a_file { answers_to (codes "create /f 644\nstat /f/" ++ (97 ∷ longest 97) ++ codes "\n") ≡ codes "1 ok\n2 notdir\n" }
    ensures without_right { answers_to (codes "mkdir /d 700\nas 5 5\nstat /d/" ++ (97 ∷ longest 97) ++ codes "\n") ≡ codes "1 ok\n2 ok\n3 denied\n" }
    ensures longest_name { answers_to (codes "stat /" ++ longest 97 ++ codes "\nstat /" ++ (97 ∷ longest 97) ++ codes "\n") ≡ codes "1 noent\n2 nametoolong\n" }
    // Paths of 1,024 and of 1,025 bytes.
    ensures longest_path { answers_to (codes "stat /z" ++ replicate 1022 47 ++ codes "\nstat /z" ++ replicate 1023 47 ++ codes "\n") ≡ codes "1 noent\n2 nametoolong\n" }
    ensures longest_text { answers_to (codes "symlink " ++ replicate 1024 97 ++ codes " /l\nsymlink " ++ replicate 1025 97 ++ codes " /x/y\nlstat /l\n")
        ≡ codes "1 ok\n2 nametoolong\n3 ok 3 link 777 1 0 0 1024 1000 1\n" }
    ensures second_word { answers_to (codes "rename /x/y /" ++ replicate 1024 97 ++ codes "\nlink /x/y /" ++ replicate 1024 97 ++ codes "\n") ≡ codes "1 nametoolong\n2 nametoolong\n" }
    // The first path is walked whole before the second.
    ensures first_walk { answers_to (codes "create /f 644\nrename /x/y /f/z\nrename /f/y /x/z\nrename /y /x/z\n") ≡ codes "1 ok\n2 noent\n3 notdir\n4 noent\n" }
{}
