ghost use Rattle.std.specs.Prelude.{◌≡◌};
ghost use Rattle.case_front.specs.Table.{front_names, edit_names};

use case_table::Cases;

/// How many methods a line may name.
pub const FRONT_METHODS: usize = 11;

/// How many methods `edit` may name.
pub const EDIT_METHODS: usize = 45;

/// Where the names of [`front_cases`] start and end in their text.
const FRONT_PLACES: [(usize, usize); FRONT_METHODS] = [
    (0, 14),
    (15, 25),
    (26, 30),
    (31, 49),
    (50, 58),
    (59, 65),
    (66, 72),
    (73, 77),
    (78, 90),
    (91, 100),
    (101, 115),
];

/// Where the names of [`edit_cases`] start and end in their text.
const EDIT_PLACES: [(usize, usize); EDIT_METHODS] = [
    (0, 5),
    (6, 25),
    (26, 30),
    (31, 34),
    (35, 50),
    (51, 65),
    (66, 86),
    (87, 106),
    (107, 111),
    (112, 116),
    (117, 126),
    (127, 140),
    (141, 148),
    (149, 158),
    (159, 173),
    (174, 180),
    (181, 195),
    (196, 206),
    (207, 216),
    (217, 247),
    (248, 257),
    (258, 288),
    (289, 299),
    (300, 331),
    (332, 361),
    (362, 412),
    (413, 436),
    (437, 481),
    (482, 506),
    (507, 552),
    (553, 578),
    (579, 625),
    (626, 633),
    (634, 662),
    (663, 677),
    (678, 713),
    (714, 729),
    (730, 766),
    (767, 772),
    (773, 777),
    (778, 791),
    (792, 798),
    (799, 805),
    (806, 816),
    (817, 821),
];

/// The methods that a line may name. Names that begin with `debug_` stand in no table.
pub fn front_cases() -> Cases<'static, FRONT_METHODS>
    ensures { result ≡ front_names }
{
    Cases::<FRONT_METHODS>::standing(
        "client_started close_view edit modify_user_config new_view plugin resize save set_language set_theme tracing_config ",
        FRONT_PLACES,
    )
}

/// The methods that `edit` may name. Names that begin with `debug_` stand in no table.
pub fn edit_cases() -> Cases<'static, EDIT_METHODS>
    ensures { result ≡ edit_names }
{
    Cases::<EDIT_METHODS>::standing(
        "click collapse_selections copy cut delete_backward delete_forward delete_word_backward delete_word_forward drag find find_next find_previous gesture goto_line highlight_find insert insert_newline insert_tab move_down move_down_and_modify_selection move_left move_left_and_modify_selection move_right move_right_and_modify_selection move_to_beginning_of_document move_to_beginning_of_document_and_modify_selection move_to_end_of_document move_to_end_of_document_and_modify_selection move_to_left_end_of_line move_to_left_end_of_line_and_modify_selection move_to_right_end_of_line move_to_right_end_of_line_and_modify_selection move_up move_up_and_modify_selection move_word_left move_word_left_and_modify_selection move_word_right move_word_right_and_modify_selection paste redo request_lines resize scroll select_all undo ",
        EDIT_PLACES,
    )
}
