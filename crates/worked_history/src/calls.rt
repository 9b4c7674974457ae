//! Calls computed on small trees: what each does and why it is refused, with the text of each reply.
ghost use Rattle.std.specs.Prelude.{◌≡◌, ◌∷◌, ◌++◌, [], codes};
ghost use Rattle.history_model.specs.WorkedTrees.{tree_with, first_chunk, slot, empty_file};
ghost use Rattle.worked_history.specs.Trees.{answers_to, answers_on, later_answers_on};

/// `create`: a new file belongs to its caller.
pub fn files_made()
    ensures listed { answers_to (codes "create /a 644\nstat /a\nlist /\n") ≡ codes "1 ok\n2 ok 3 file 644 1 0 0 0 1000 0\n3 ok 1 end a\n" }
    ensures owned { answers_to (codes "chmod / 777\nas 5 6\ncreate /a 640\nstat /a\n") ≡ codes "1 ok\n2 ok\n3 ok\n4 ok 3 file 640 1 5 6 0 1000 0\n" }
    ensures there { answers_to (codes "create /a 644\ncreate /a 600\nmkdir /a 755\nsymlink x /a\ncreate /. 644\ncreate / 644\n")
        ≡ codes "1 ok\n2 exist\n3 exist\n4 exist\n5 exist\n6 exist\n" }
    ensures denied_first { answers_to (codes "create /a 644\nas 5 5\ncreate /a 600\nmkdir /a 755\nsymlink x /a\nlink /a /a\n")
        ≡ codes "1 ok\n2 ok\n3 denied\n4 denied\n5 denied\n6 denied\n" }
{}

/// `mkdir`: a new directory is a link of the one above it.
pub fn directories_made()
    ensures beside_files { answers_to (codes "create /a 644\ncreate /b 600\nmkdir /d 755\nlist /\ndf\n") ≡ codes "1 ok\n2 ok\n3 ok\n4 ok 3 end a b d\n5 ok 60 26\n" }
    ensures nested { answers_to (codes "mkdir /d 755\nmkdir /d/e 700\nstat /\nstat /d\nstat /d/e\nstat /d/e/..\nlist /d\n")
        ≡ codes "1 ok\n2 ok\n3 ok 2 dir 755 3 0 0 512 1000 1\n4 ok 3 dir 755 3 0 0 512 1000 1\n5 ok 4 dir 700 2 0 0 512 1000 1\n6 ok 3 dir 755 3 0 0 512 1000 1\n7 ok 1 end e\n" }
{}

/// `link`: one inode under several names.
pub fn names_of_one_inode()
    ensures counted { answers_to (codes "create /a 644\nlink /a /b\nstat /b\nlink /b /c\nstat /a\n")
        ≡ codes "1 ok\n2 ok\n3 ok 3 file 644 2 0 0 0 1000 0\n4 ok\n5 ok 3 file 644 3 0 0 0 1000 0\n" }
    ensures refused { answers_to (codes "mkdir /d 755\ncreate /a 644\nas 5 5\nlink /z /x\nlink /a /b\nas 0 0\nlink /a /d\nlink /d /a\nlink /d /x\n")
        ≡ codes "1 ok\n2 ok\n3 ok\n4 noent\n5 denied\n6 ok\n7 exist\n8 exist\n9 isdir\n" }
    ensures of_a_link { answers_to (codes "symlink x /l\nlink /l /m\nlstat /m\n") ≡ codes "1 ok\n2 ok\n3 ok 3 link 777 2 0 0 1 1000 1\n" }
{}

/// `symlink`, `readlink`, `stat` and `lstat`.
pub fn symbolic_links()
    ensures told { answers_to (codes "symlink /f /l\nlstat /l\nreadlink /l\nstat /l\ncreate /l 644\nreadlink /\nreadlink /z\nlstat /z\n")
        ≡ codes "1 ok\n2 ok 3 link 777 1 0 0 2 1000 1\n3 ok /f\n4 noent\n5 exist\n6 inval\n7 noent\n8 noent\n" }
    ensures to_itself { answers_to (codes "symlink /l /l\nstat /l\ncreate /a 600\nas 5 5\nchmod /a 777\ncreate /b 644\n")
        ≡ codes "1 ok\n2 loop\n3 ok\n4 ok\n5 denied\n6 denied\n" }
{}

/// `remove`: an inode goes with its last name, and a link isn't followed.
pub fn names_removed()
    ensures refused { answers_to (codes "create /a 644\nmkdir /d 755\nas 5 5\nremove /z\nremove /d\nremove /a\nas 0 0\nremove /d\nremove /a\nstat /a\n")
        ≡ codes "1 ok\n2 ok\n3 ok\n4 noent\n5 denied\n6 denied\n7 ok\n8 isdir\n9 ok\n10 noent\n" }
    ensures of_a_link { answers_to (codes "create /f 644\nsymlink /f /l\nremove /l\nstat /f\nlstat /l\ndf\n")
        ≡ codes "1 ok\n2 ok\n3 ok\n4 ok 3 file 644 1 0 0 0 1000 0\n5 noent\n6 ok 61 28\n" }
    ensures last_name { answers_to (codes "create /a 644\nwrite /a 0 61\nlink /a /b\nremove /a\ndf\nremove /b\ndf\n")
        ≡ codes "1 ok\n2 ok\n3 ok\n4 ok\n5 ok 60 28\n6 ok\n7 ok 61 29\n" }
{}

/// `rmdir`: an empty directory goes, and the one above it loses a link.
pub fn directories_removed()
    ensures refused { answers_to (codes "mkdir /d 755\nmkdir /d/e 755\ncreate /f 644\nas 5 5\nrmdir /z\nrmdir /f\nrmdir /d\nas 0 0\nrmdir /d\nrmdir /d/.\nrmdir /d/e/.\n")
        ≡ codes "1 ok\n2 ok\n3 ok\n4 ok\n5 noent\n6 notdir\n7 denied\n8 ok\n9 notempty\n10 notempty\n11 inval\n" }
    ensures gone { answers_to (codes "mkdir /d 755\nmkdir /d/e 755\nrmdir /d/e\nstat /d\nrmdir /d/..\nrmdir /d\nstat /\nrmdir /\ndf\n")
        ≡ codes "1 ok\n2 ok\n3 ok\n4 ok 3 dir 755 2 0 0 512 1000 1\n5 notempty\n6 ok\n7 ok 2 dir 755 2 0 0 512 1000 1\n8 inval\n9 ok 61 29\n" }
{}

/// `chmod` and `chown`.
pub fn attributes_changed()
    ensures refused { answers_to (codes "create /a 644\nas 5 5\nchmod /z 600\nchmod /a 600\nchown /z 1 1\nchown /a 1 1\n")
        ≡ codes "1 ok\n2 ok\n3 noent\n4 denied\n5 noent\n6 denied\n" }
    ensures by_the_owner { answers_to (codes "create /a 644\nchmod /a 000\nchown /a 5 6\nstat /a\nas 5 9\nchmod /a 0751\nstat /a\nchown /a 5 5\n")
        ≡ codes "1 ok\n2 ok\n3 ok\n4 ok 3 file 000 1 5 6 0 1000 0\n5 ok\n6 ok\n7 ok 3 file 751 1 5 6 0 1000 0\n8 denied\n" }
{}

/// `write`, `trunc`, `read` and `fsync` where they are refused.
pub fn bytes_refused()
    ensures write { answers_to (codes "create /f 600\nmkdir /d 700\nas 5 5\nwrite /z 0 61\nwrite /f 4243456 61\nwrite /d 0 61\nas 0 0\nwrite /d 4243456 61\nwrite /f 4243456 61\n")
        ≡ codes "1 ok\n2 ok\n3 ok\n4 noent\n5 denied\n6 denied\n7 ok\n8 isdir\n9 fbig\n" }
    ensures trunc { answers_to (codes "create /f 600\nmkdir /d 700\nas 5 5\ntrunc /z 0\ntrunc /f 4243457\ntrunc /d 0\nas 0 0\ntrunc /d 4243457\ntrunc /f 4243457\n")
        ≡ codes "1 ok\n2 ok\n3 ok\n4 noent\n5 denied\n6 denied\n7 ok\n8 isdir\n9 fbig\n" }
    ensures read { answers_to (codes "create /f 600\nmkdir /d 700\nas 5 5\nread /z 0 1\nread /f 0 1\nread /d 0 1\nas 0 0\nread /d 0 1\nread /f 0 1\n")
        ≡ codes "1 ok\n2 ok\n3 ok\n4 noent\n5 denied\n6 denied\n7 ok\n8 isdir\n9 ok -\n" }
    ensures fsync { answers_to (codes "create /f 644\nfsync /f\nfsync /z\nfsync /\n") ≡ codes "1 ok\n2 ok\n3 noent\n4 ok\n" }
{}

/// `list`: sixteen names at a time, in the order of their bytes.
pub fn names_listed()
    ensures sixteen { answers_to (codes "create /p 644\ncreate /o 644\ncreate /n 644\ncreate /m 644\ncreate /l 644\ncreate /k 644\ncreate /j 644\ncreate /i 644\ncreate /h 644\ncreate /g 644\ncreate /f 644\ncreate /e 644\ncreate /d 644\ncreate /c 644\ncreate /b 644\ncreate /a 644\nlist /\n")
        ≡ codes "1 ok\n2 ok\n3 ok\n4 ok\n5 ok\n6 ok\n7 ok\n8 ok\n9 ok\n10 ok\n11 ok\n12 ok\n13 ok\n14 ok\n15 ok\n16 ok\n17 ok 16 end a b c d e f g h i j k l m n o p\n" }
    ensures seventeen { answers_to (codes "create /q 644\ncreate /p 644\ncreate /o 644\ncreate /n 644\ncreate /m 644\ncreate /l 644\ncreate /k 644\ncreate /j 644\ncreate /i 644\ncreate /h 644\ncreate /g 644\ncreate /f 644\ncreate /e 644\ncreate /d 644\ncreate /c 644\ncreate /b 644\ncreate /a 644\nlist /\nlist / o\nlist / q\n")
        ≡ codes "1 ok\n2 ok\n3 ok\n4 ok\n5 ok\n6 ok\n7 ok\n8 ok\n9 ok\n10 ok\n11 ok\n12 ok\n13 ok\n14 ok\n15 ok\n16 ok\n17 ok\n18 ok 16 more a b c d e f g h i j k l m n o p\n19 ok 2 end p q\n20 ok 0 end\n" }
    ensures by_bytes { answers_to (codes "create /b 644\ncreate /B 644\ncreate /ab 644\nmkdir /a 755\nlist /\nlist / a\nlist / aa\n")
        ≡ codes "1 ok\n2 ok\n3 ok\n4 ok\n5 ok 4 end B a ab b\n6 ok 2 end ab b\n7 ok 2 end ab b\n" }
    ensures refused { answers_to (codes "create /f 600\nmkdir /d 700\nas 5 5\nlist /z\nlist /f\nlist /d\nlist /\n")
        ≡ codes "1 ok\n2 ok\n3 ok\n4 noent\n5 notdir\n6 denied\n7 ok 2 end d f\n" }
{}

/// Times: of the directory whose names change, and of the file whose bytes or size do.
pub fn times()
    ensures create { later_answers_on (tree_with (first_chunk 2 2 (slot 3 488 (codes "f") ∷ []) ∷ []) (empty_file ∷ [])) (codes "create /a 644\nstat /a\nstat /\n")
        ≡ codes "1 ok\n2 ok 4 file 644 1 0 0 0 2000 0\n3 ok 2 dir 755 2 0 0 512 2000 1\n" }
    ensures link { later_answers_on (tree_with (first_chunk 2 2 (slot 3 488 (codes "f") ∷ []) ∷ []) (empty_file ∷ [])) (codes "link /f /g\nstat /g\nstat /\n")
        ≡ codes "1 ok\n2 ok 3 file 644 2 0 0 0 1000 0\n3 ok 2 dir 755 2 0 0 512 2000 1\n" }
    ensures remove { later_answers_on (tree_with (first_chunk 2 2 (slot 3 488 (codes "f") ∷ []) ∷ []) (empty_file ∷ [])) (codes "remove /f\nstat /\n")
        ≡ codes "1 ok\n2 ok 2 dir 755 2 0 0 512 2000 1\n" }
    ensures chmod { later_answers_on (tree_with (first_chunk 2 2 (slot 3 488 (codes "f") ∷ []) ∷ []) (empty_file ∷ [])) (codes "chmod /f 600\nchown /f 7 8\nstat /f\nstat /\n")
        ≡ codes "1 ok\n2 ok\n3 ok 3 file 600 1 7 8 0 1000 0\n4 ok 2 dir 755 2 0 0 512 1000 1\n" }
    ensures write { later_answers_on (tree_with (first_chunk 2 2 (slot 3 488 (codes "f") ∷ []) ∷ []) (empty_file ∷ [])) (codes "write /f 0 61\nstat /f\nstat /\n")
        ≡ codes "1 ok\n2 ok 3 file 644 1 0 0 1 2000 1\n3 ok 2 dir 755 2 0 0 512 1000 1\n" }
    ensures trunc { later_answers_on (tree_with (first_chunk 2 2 (slot 3 488 (codes "f") ∷ []) ∷ []) (empty_file ∷ [])) (codes "trunc /f 0\nstat /f\nstat /\n")
        ≡ codes "1 ok\n2 ok 3 file 644 1 0 0 0 2000 0\n3 ok 2 dir 755 2 0 0 512 1000 1\n" }
    ensures rename { later_answers_on (tree_with (first_chunk 2 2 (slot 3 488 (codes "f") ∷ []) ∷ []) (empty_file ∷ [])) (codes "rename /f /g\nstat /g\nstat /\n")
        ≡ codes "1 ok\n2 ok 3 file 644 1 0 0 0 1000 0\n3 ok 2 dir 755 2 0 0 512 2000 1\n" }
    ensures rename_unchanged { later_answers_on (tree_with (first_chunk 2 2 (slot 3 488 (codes "f") ∷ []) ∷ []) (empty_file ∷ [])) (codes "rename /f /f\nread /f 0 1\nfsync /f\nstat /\n")
        ≡ codes "1 ok\n2 ok -\n3 ok\n4 ok 2 dir 755 2 0 0 512 1000 1\n" }
{}
