//! Worked sessions: the pattern files, the input, and the output that must come.

/// A pattern file of a session.
#[derive(Clone, Copy)]
pub struct File<'a> {
    /// The name of the file.
    pub name: &'static str,
    /// The bytes of the file.
    pub text: &'a [u8],
}

/// A session, named by what it shows.
pub struct Session {
    /// What the session shows.
    pub name: &'static str,
    /// The pattern files.
    pub files: &'static [File<'static>],
    /// The bytes of the input.
    pub input: &'static [u8],
    /// The bytes of the output that must come.
    pub output: &'static [u8],
}

/// The sessions of the protocol's frame, of the board, of readings and of patterns.
pub static SESSIONS: [Session; 33] = [
    Session {
        name: "reply_repeats_the_id",
        files: &[],
        input: b"1 play b D4\n",
        output: b"=1\n\n",
    },
    Session {
        name: "empty_input",
        files: &[],
        input: b"",
        output: b"",
    },
    Session {
        name: "unended_line",
        files: &[],
        input: b"name",
        output: b"= gopat\n\n",
    },
    Session {
        name: "unended_line_behind_another",
        files: &[],
        input: b"name\nna",
        output: b"= gopat\n\n? unknown command\n\n",
    },
    Session {
        name: "occupied_point_is_illegal_and_undo_stops_at_the_start",
        files: &[],
        input: b"play b D4\nplay w D4\nplay w d5\nundo\nundo\nundo\n",
        output: b"=\n\n? illegal move\n\n=\n\n=\n\n=\n\n? cannot undo\n\n",
    },
    Session {
        name: "ids_blanks_and_comments",
        files: &[],
        input: b"2147483647\tname \r# hi\n2147483648 name\n5\n# x\n",
        output: b"=2147483647 gopat\n\n? unknown command\n\n?5 unknown command\n\n",
    },
    Session {
        name: "board_sizes_and_the_smallest_board",
        files: &[],
        input: b"boardsize 1\nboardsize 26\nboardsize x\nboardsize 2\nplay b A1\nplay b B2\nis_legal w B1\n\
            all_legal w\nall_legal b\ncountlib A1\nshowboard\n",
        output: b"? unacceptable size\n\n? unacceptable size\n\n? syntax error\n\n=\n\n=\n\n=\n\n= 0\n\n=\n\n\
            = A2 B1\n\n= 2\n\n= \n 2 . X\n 1 X .\n   A B\n\n",
    },
    Session {
        name: "first_board_has_19_rows",
        files: &[],
        input: b"play b T19\nplay w U1\nplay w A20\nfindlib T19\n",
        output: b"=\n\n? syntax error\n\n? syntax error\n\n= S19 T18\n\n",
    },
    Session {
        name: "komi_is_kept_as_text",
        files: &[],
        input: b"komi 6.5\nget_komi\nkomi six\nknown_command undo\nknown_command x\nclear_board\nget_komi\n",
        output: b"=\n\n= 6.5\n\n? syntax error\n\n= true\n\n= false\n\n=\n\n= 6.5\n\n",
    },
    // . . O . .
    // . O X O .     Black's stone at D4 has its last liberty at D3; one ply deep, a pass already saves the stone.
    // . . . . .
    Session {
        name: "stone_in_atari_is_captured",
        files: &[],
        input: b"boardsize 9\ndepths 3 2\nplay b D4\nplay w C4\nplay w E4\nplay w D5\nattack D4\ndepths 1 0\n\
            attack D4\ndefend D4\n",
        output: b"=\n\n=\n\n=\n\n=\n\n=\n\n=\n\n= 3 D3\n\n=\n\n= 3 D3\n\n= 3 PASS\n\n",
    },
    Session {
        name: "stone_in_atari_extends",
        files: &[],
        input: b"boardsize 9\ndepths 3 2\nplay b D4\nplay w C4\nplay w E4\nplay w D5\ndefend D4\n",
        output: b"=\n\n=\n\n=\n\n=\n\n=\n\n=\n\n= 3 D3\n\n",
    },
    Session {
        name: "lone_stone_is_safe",
        files: &[],
        input: b"boardsize 9\ndepths 3 2\nplay b D4\nattack D4\ndefend D4\ncountlib D4\nfindlib D4\ncountlib E5\n\
            findlib E5\n",
        output: b"=\n\n=\n\n=\n\n= 0\n\n= 3 PASS\n\n= 4\n\n= D5 C4 E4 D3\n\n? vertex must not be empty\n\n\
            ? vertex must not be empty\n\n",
    },
    Session {
        name: "reading_needs_a_stone",
        files: &[],
        input: b"boardsize 9\nplay b D4\nattack E5\ndefend E5\nattack pass\nattack I5\n",
        output: b"=\n\n=\n\n? vertex must not be empty\n\n? vertex must not be empty\n\n? syntax error\n\n\
            ? syntax error\n\n",
    },
    Session {
        name: "depths_lie_in_their_ranges",
        files: &[],
        input: b"depths 200 12\ndepths 1 0\ndepths 0 2\ndepths 201 2\ndepths 10 13\ndepths 10\n",
        output: b"=\n\n=\n\n? syntax error\n\n? syntax error\n\n? syntax error\n\n? syntax error\n\n",
    },
    // . . . . .
    // . . X O .     White's last play, at C3, took the black stone at D3,
    // . X O . O     and Black may not retake there at once.
    // . . X O .
    // . . . . .
    Session {
        name: "ko_capture_needs_the_attackers_allowance",
        files: &[],
        input: b"boardsize 5\ndepths 3 4\nplay b B3\nplay b C4\nplay b C2\nplay b D3\nplay w D4\nplay w E3\n\
            play w D2\nplay w C3\ncaptures w\nplay b D3\nis_legal b D3\nis_legal w D3\nattack C3\n",
        output: b"=\n\n=\n\n=\n\n=\n\n=\n\n=\n\n=\n\n=\n\n=\n\n=\n\n= 1\n\n? illegal move\n\n= 0\n\n= 1\n\n= 1 D3\n\n",
    },
    Session {
        name: "passes_lift_the_ban_and_undo_restores_stones",
        files: &[],
        input: b"boardsize 5\ndepths 3 4\nplay b B3\nplay b C4\nplay b C2\nplay b D3\nplay w D4\nplay w E3\n\
            play w D2\nplay w C3\nplay b pass\nplay w pass\nis_legal b D3\nattack C3\nundo\nundo\nundo\n\
            countlib D3\ncaptures w\n",
        output: b"=\n\n=\n\n=\n\n=\n\n=\n\n=\n\n=\n\n=\n\n=\n\n=\n\n=\n\n=\n\n= 1\n\n= 3 D3\n\n=\n\n=\n\n=\n\n\
            = 1\n\n= 0\n\n",
    },
    Session {
        name: "filling_the_ko_saves_the_stone",
        files: &[],
        input: b"boardsize 5\ndepths 3 4\nplay b B3\nplay b C4\nplay b C2\nplay b D3\nplay w D4\nplay w E3\n\
            play w D2\nplay w C3\ndefend C3\n",
        output: b"=\n\n=\n\n=\n\n=\n\n=\n\n=\n\n=\n\n=\n\n=\n\n=\n\n= 3 D3\n\n",
    },
    // O . . . .
    // X O . . .     White takes A3, and Black may retake there only by ignoring the ko ban.
    // . X O . .
    // X . X O .
    Session {
        name: "defender_ignores_the_ban_once",
        files: &[],
        input: b"boardsize 5\ndepths 3 2\nplay b A1\nplay b B2\nplay b C1\nplay b A3\nplay w A4\nplay w B3\n\
            play w C2\nplay w D1\nattack A1\n",
        output: b"=\n\n=\n\n=\n\n=\n\n=\n\n=\n\n=\n\n=\n\n=\n\n=\n\n= 2 A2\n\n",
    },
    Session {
        name: "nothing_is_answered_after_quit",
        files: &[],
        input: b"7 quit\nname\n",
        output: b"=7\n\n",
    },
    Session {
        name: "list_patterns_layout",
        files: &[File {
            name: "p",
            text: b"Pattern P\nO*\n:8,s\n",
        }],
        input: b"list_patterns\n",
        output: b"= P 1x2 8 s\n\n",
    },
    Session {
        name: "files_are_joined_in_their_order",
        files: &[
            File {
                name: "p",
                text: b"Pattern P\nO*\n:8,s",
            },
            File {
                name: "none",
                text: b"",
            },
            File {
                name: "q",
                text: b"Pattern Q\nX*\n:|,-s\n",
            },
        ],
        input: b"list_patterns\n",
        output: b"= P 1x2 8 s\nQ 1x2 | s\n\n",
    },
    Session {
        name: "eight_placements_of_the_smallest_pattern",
        files: &[File {
            name: "p",
            text: b"Pattern P\nO*\n:8,s\n",
        }],
        input: b"boardsize 3\nplay b B2\nmatch_patterns b\n",
        output: b"=\n\n=\n\n= P 0 C2\nP 1 B1\nP 2 A2\nP 3 B3\nP 4 A2\nP 5 B3\nP 6 C2\nP 7 B1\n\n",
    },
    Session {
        name: "mark_limits_the_transformations_to_four",
        files: &[File {
            name: "p",
            text: b"Pattern P\nO*\n:-,s\n",
        }],
        input: b"boardsize 3\nplay b B2\nmatch_patterns b\n",
        output: b"=\n\n=\n\n= P 0 C2\nP 1 B1\nP 2 A2\nP 3 B3\n\n",
    },
    Session {
        name: "mark_limits_the_transformations_to_one",
        files: &[File {
            name: "p",
            text: b"Pattern P\nO*\n:O,s\n",
        }],
        input: b"boardsize 3\nplay b B2\nmatch_patterns b\n",
        output: b"=\n\n=\n\n= P 0 C2\n\n",
    },
    Session {
        name: "drawn_edges_need_the_edge",
        files: &[File {
            name: "p",
            text: b"Pattern P\nO*|\n:8,s\n",
        }],
        input: b"boardsize 9\nplay b H5\nmatch_patterns b\nboardsize 9\nplay b E5\nmatch_patterns b\n",
        output: b"=\n\n=\n\n= P 0 J5\nP 6 J5\n\n=\n\n=\n\n=\n\n",
    },
    Session {
        name: "helper_filters_matches",
        files: &[File {
            name: "p",
            text: b"Pattern P\nO*\n:8,s,near_edge\n",
        }],
        input: b"boardsize 9\nplay b C5\nmatch_patterns b\n",
        output: b"=\n\n=\n\n= P 2 B5\nP 4 B5\n\n",
    },
    // . . . . .
    // . . X O .     White's last play, at C3, took the black stone at D3,
    // . X O . O     and the ko ban at D3 stands until the next move.
    // . . X O .
    // . . . . .
    Session {
        name: "helper_asks_for_no_ban",
        files: &[File {
            name: "p",
            text: b"Pattern P\nO*|\n:O,s,no_ban\n",
        }],
        input: b"boardsize 5\nplay b B3\nplay b C4\nplay b C2\nplay b D3\nplay w D4\nplay w E3\nplay w D2\n\
            play w C3\nmatch_patterns w\nplay b pass\nmatch_patterns w\n",
        output: b"=\n\n=\n\n=\n\n=\n\n=\n\n=\n\n=\n\n=\n\n=\n\n=\n\n=\n\n= P 0 E4\nP 0 E2\n\n",
    },
    Session {
        name: "comments_alone_are_no_patterns",
        files: &[File {
            name: "p",
            text: b"# nothing\n",
        }],
        input: b"match_patterns b\nlist_patterns\n",
        output: b"=\n\n=\n\n",
    },
    Session {
        name: "one_point_jump_connects_until_it_is_cut",
        files: &[],
        input: b"boardsize 9\ndepths 3 2\nplay b C5\nplay b E5\nconnect C5 E5\ndisconnect C5 E5\nplay w D5\n\
            connect C5 E5\ndisconnect C5 E5\nconnect C5 D5\n",
        output: b"=\n\n=\n\n=\n\n=\n\n= 1 D5\n\n= 1 D5\n\n=\n\n= 0\n\n= 1 PASS\n\n? colours differ\n\n",
    },
    Session {
        name: "printed_proofs_are_accepted",
        files: &[],
        input: b"boardsize 9\ndepths 1 0\nplay w D4\nplay b C4\nplay b E4\nplay b D5\nattack_proof D4\n\
            check_proof attack D4 3 W D3 .\ncheck_proof attack D4 3 W C3 .\ncheck_proof defend A1 3\n",
        output: b"=\n\n=\n\n=\n\n=\n\n=\n\n=\n\n= 3 W D3 .\n\n= true\n\n= false\n\n\
            ? vertex must not be empty\n\n",
    },
    Session {
        name: "match_of_greatest_value_is_played",
        files: &[File {
            name: "p",
            text: b"Pattern A\nO*\n:O,s,value(5)\n\nPattern B\n*O\n:O,s,value(9)\n",
        }],
        input: b"boardsize 3\nplay b B2\nreg_genmove b\nreg_genmove w\ngenmove b\nundo\nundo\nundo\n",
        output: b"=\n\n=\n\n= A2\n\n= PASS\n\n= A2\n\n=\n\n=\n\n? cannot undo\n\n",
    },
    Session {
        name: "helper_is_counted_switched_off_and_dropped",
        files: &[File {
            name: "p",
            text: b"Pattern P\nO*\n:8,s,near_edge\n",
        }],
        input: b"boardsize 9\nplay b C5\ngenmove b\nhelper_calls near_edge\nhelper_off near_edge\n\
            match_patterns b\nhelper_calls near_edge\nhelper_drop near_edge\nhelper_calls near_edge\n",
        output: b"=\n\n=\n\n= B5\n\n= 8\n\n=\n\n=\n\n= 8\n\n=\n\n? no such helper\n\n",
    },
    Session {
        name: "every_command_is_listed_in_order",
        files: &[],
        input: b"protocol_version\nversion\nlist_commands\n",
        output: b"= 2\n\n= 1\n\n= protocol_version\nname\nversion\nknown_command\nlist_commands\nquit\n\
            boardsize\nclear_board\nkomi\nget_komi\nplay\nundo\nshowboard\nis_legal\nall_legal\ncountlib\n\
            findlib\ncaptures\nattack\ndefend\ndepths\nmatch_patterns\nlist_patterns\n\
            loadsgf\nattack_proof\ndefend_proof\ncheck_proof\nconnect\ndisconnect\ngenmove\nreg_genmove\n\
            helper_off\nhelper_calls\nhelper_drop\n\n",
    },
];
