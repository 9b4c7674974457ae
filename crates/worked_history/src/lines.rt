//! The lines of scripts and the texts of replies, computed.
ghost use Rattle.std.specs.Prelude.{◌≡◌, ◌∷◌, ◌++◌, [], codes, replicate, map, Some, None, true, false};
ghost use Rattle.tree_types.specs.declared.call.Call.TheVariants as call;
ghost use Rattle.tree_types.specs.declared.reply.Reply.TheVariants as reply;
ghost use Rattle.tree_types.specs.declared.reply.Refusal.TheVariants as refusal;
ghost use Rattle.history_model.specs.Lines.{lines_of, first_caller};
ghost use Rattle.history_model.specs.ReplyText.{refusal_word, reply_text_of};
ghost use Rattle.worked_history.specs.Trees.{answers_to};

/// Which lines are skipped, how lines are numbered, and where a script ends.
pub fn lines_numbered()
    ensures skipped { answers_to (codes "# a comment\n\n   \ndf\n#\ndf") ≡ codes "4 ok 61 29\n6 ok 61 29\n" }
    ensures no_line { answers_to [] ≡ [] }
    ensures last_line { answers_to (codes "df\n\n") ≡ codes "1 ok 61 29\n" }
    // A space or a tab before the `#` makes it no comment, and a carriage return is no part of a line.
    ensures no_comment { answers_to (codes " # x\ndf\t\n\tdf\n" ++ (100 ∷ (102 ∷ (13 ∷ (10 ∷ (13 ∷ (10 ∷ []))))))) ≡ codes "1 syntax\n2 syntax\n3 syntax\n4 syntax\n5 syntax\n" }
    ensures comment_of_any_bytes { answers_to (35 ∷ (200 ∷ (9 ∷ (10 ∷ codes "df\n")))) ≡ codes "2 ok 61 29\n" }
    // 36,864 bytes, and one more.
    ensures longest { answers_to (codes "df" ++ replicate 36862 32 ++ codes "\ndf" ++ replicate 36863 32 ++ codes "\n") ≡ codes "1 ok 61 29\n2 syntax\n" }
{}

/// The example of `docs/SCRIPTS.md`, "Replies".
pub fn example_of_replies()
    ensures { answers_to (codes "create /a 644\n# a note to the reader\nstat /a\nwrite /a 5000 61\nread /a 4998 10\nlist /\nmkdir a 755\ncreate /a 600\ndf\n")
        ≡ codes "1 ok\n3 ok 3 file 644 1 0 0 0 1000 0\n4 ok\n5 ok 000061\n6 ok 1 end a\n7 syntax\n8 exist\n9 ok 60 28\n" }
{}

/// Words, and what is no call.
pub fn words_of_lines()
    ensures spaces { answers_to (codes "  create   /a  644  \nstat /a\n") ≡ codes "1 ok\n2 ok 3 file 644 1 0 0 0 1000 0\n" }
    ensures modes { answers_to (codes "create /a 0640\ncreate /b 64\ncreate /b 1644\ncreate /b 648\ncreate /b 00644\ncreate /b\ncreate /b 644 x\nstat /a\n")
        ≡ codes "1 ok\n2 syntax\n3 syntax\n4 syntax\n5 syntax\n6 syntax\n7 syntax\n8 ok 3 file 640 1 0 0 0 1000 0\n" }
    ensures paths { answers_to (codes "stat a\nstat\nstat / /\nmkdir d 755\nlink / a\nrename a /\nremove .\n") ≡ codes "1 syntax\n2 syntax\n3 syntax\n4 syntax\n5 syntax\n6 syntax\n7 syntax\n" }
    ensures numbers { answers_to (codes "trunc /a 0\ntrunc /a 00\ntrunc /a 01\ntrunc /a +1\ntrunc /a -1\ntrunc /a 1x\ntrunc /a 18446744073709551615\ntrunc /a 18446744073709551616\n")
        ≡ codes "1 noent\n2 syntax\n3 syntax\n4 syntax\n5 syntax\n6 syntax\n7 noent\n8 syntax\n" }
    ensures users { answers_to (codes "as 4294967295 4294967295\nas 4294967296 0\nas 0 4294967296\nas 0\nas 5 x\ncreate /a 644\n") ≡ codes "1 ok\n2 syntax\n3 syntax\n4 syntax\n5 syntax\n6 denied\n" }
    ensures counts { answers_to (codes "read /a 0 1\nread /a 0 4096\nread /a 0 4097\nread /a 0 0\nread /a 0\n") ≡ codes "1 noent\n2 noent\n3 syntax\n4 syntax\n5 syntax\n" }
    ensures bytes { answers_to (codes "create /a 644\nwrite /a 0 aBcD09\nwrite /a 0 abc\nwrite /a 0 xy\nwrite /a 0\nread /a 0 9\n") ≡ codes "1 ok\n2 ok\n3 syntax\n4 syntax\n5 syntax\n6 ok abcd09\n" }
    ensures most_bytes { answers_to (codes "write /a 0 " ++ replicate 32768 48 ++ codes "\nwrite /a 0 " ++ replicate 32770 48 ++ codes "\n") ≡ codes "1 noent\n2 syntax\n" }
    ensures names { answers_to (codes "list / a\nlist / /a\nlist / a/b\nlist / " ++ replicate 255 97 ++ codes "\nlist / " ++ replicate 256 97 ++ codes "\n") ≡ codes "1 ok 0 end\n2 syntax\n3 syntax\n4 ok 0 end\n5 syntax\n" }
    ensures other_words { answers_to (codes "stats /\nSTAT /\ndf /\nbecome 0 0\nsymlink /l\n") ≡ codes "1 syntax\n2 syntax\n3 syntax\n4 syntax\n5 syntax\n" }
{}

/// Which lines are synchronous.
pub fn synchronous_lines()
    ensures marked { answers_to (codes "!create /a 644\n !chmod /a 600\n! create /b 644\n!stat /a\n!fsync /a\n!df\n!as 5 5\n!!remove /a\ncreate /c !644\nfsync /a\n")
        ≡ codes "1 ok\n2 ok\n3 syntax\n4 syntax\n5 syntax\n6 syntax\n7 syntax\n8 syntax\n9 syntax\n10 ok\n" }
    ensures lines { lines_of (codes "!remove /a\n#\nremove /a\nfsync /\ndf\n!df\n")
        ≡ record { number = 1; cred = first_caller; sync = true; call = Some (call.Remove (codes "/a")) }
        ∷ (record { number = 3; cred = first_caller; sync = false; call = Some (call.Remove (codes "/a")) }
        ∷ (record { number = 4; cred = first_caller; sync = true; call = Some (call.Fsync (codes "/")) }
        ∷ (record { number = 5; cred = first_caller; sync = false; call = Some call.Df }
        ∷ (record { number = 6; cred = first_caller; sync = false; call = None } ∷ [])))) }
{}

/// The texts of replies.
pub fn reply_texts()
    ensures words { map refusal_word (refusal.Syntax ∷ (refusal.Locked ∷ (refusal.Noent ∷ (refusal.Notdir ∷ (refusal.Loop ∷ (refusal.Denied ∷ (refusal.Exist ∷ (refusal.Isdir ∷ []))))))))
        ≡ codes "syntax" ∷ (codes "locked" ∷ (codes "noent" ∷ (codes "notdir" ∷ (codes "loop" ∷ (codes "denied" ∷ (codes "exist" ∷ (codes "isdir" ∷ []))))))) }
    ensures more_words { map refusal_word (refusal.Notempty ∷ (refusal.Inval ∷ (refusal.Nametoolong ∷ (refusal.Mlink ∷ (refusal.Fbig ∷ (refusal.Noinodes ∷ (refusal.Nospace ∷ (refusal.Fault ∷ (refusal.Nomem ∷ [])))))))))
        ≡ codes "notempty" ∷ (codes "inval" ∷ (codes "nametoolong" ∷ (codes "mlink" ∷ (codes "fbig" ∷ (codes "noinodes" ∷ (codes "nospace" ∷ (codes "fault" ∷ (codes "nomem" ∷ [])))))))) }
    ensures done { reply_text_of 12 reply.Done ≡ codes "12 ok\n" }
    ensures refused { reply_text_of 3 (reply.Refused refusal.Fault) ≡ codes "3 fault\n" }
    ensures stat { reply_text_of 2 (reply.Stat (record { ino = 3; mode = 0xa1ff; links = 1; uid = 4294967295; gid = 0; size = 1024; mtime = 18446744073709551615; blocks = 1 }))
        ≡ codes "2 ok 3 link 777 1 4294967295 0 1024 18446744073709551615 1\n" }
    ensures read { reply_text_of 1 (reply.Read (0 ∷ (255 ∷ (26 ∷ [])))) ≡ codes "1 ok 00ff1a\n" }
    ensures nothing_read { reply_text_of 1 (reply.Read []) ≡ codes "1 ok -\n" }
    ensures names { reply_text_of 7 (reply.Names (codes "a" ∷ (codes "b.c" ∷ [])) true) ≡ codes "7 ok 2 more a b.c\n" }
    ensures no_names { reply_text_of 7 (reply.Names [] false) ≡ codes "7 ok 0 end\n" }
    ensures text { reply_text_of 1 (reply.Text (codes "../x")) ≡ codes "1 ok ../x\n" }
    ensures df { reply_text_of 19 (reply.Df 0 27) ≡ codes "19 ok 0 27\n" }
{}
