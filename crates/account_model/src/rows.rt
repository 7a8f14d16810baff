// The row of each tool (its manual page).
use crate::OptionForm::{Flag, ShortFlag, Value};
use crate::Test::{Alone, ExactlyOne, NotBoth, OneOf, OnlyWith, SomeOf, SomeOption};
use crate::tool_statuses::{
    CHAGE_STATUSES, CHECK_STATUSES, CHFN_STATUSES, COMMON_STATUSES, CONVERSION_STATUSES,
    GETSUBIDS_STATUSES, GPASSWD_STATUSES, GROUP_STATUSES, PASSWD_STATUSES, USER_STATUSES,
};
use crate::value_form::{
    DATE_FORM, DAYS_FORM, FIELD_FORM, ID_FORM, KEY_FORM, NAME_FORM, PART_FORM, PATH_FORM,
    RANGE_FORM,
};
use crate::{Done, InputKind, Reporting, Rule, ToolRow};
use acct_text::Tab;

// What most rows have: a tool that changes the tables, and has one operand.
const COMMON: ToolRow = ToolRow {
    name: "",
    root: b'R',
    options: &[],
    least: 1,
    most: 1,
    rules: &[],
    input: InputKind::Nothing,
    is_for_lines: true,
    done: Done::Never,
    reporting: Reporting::Never,
    statuses: COMMON_STATUSES,
    wrapper_letters: b"",
    wrapper_names: &[],
};

// An option is asked for.
const WANTS_OPTION: Rule = Rule {
    text: "at least one option besides -P is needed",
    test: SomeOption,
};

const O_NEEDS_U: Rule = Rule {
    text: "-o needs -u",
    test: OnlyWith(b'o', b'u'),
};

const O_NEEDS_G: Rule = Rule {
    text: "-o needs -g",
    test: OnlyWith(b'o', b'g'),
};

// A check, which has no operand: a report or an edit, and not both (pwck(8), grpck(8)).
const CHECK: ToolRow = ToolRow {
    least: 0,
    most: 0,
    rules: &[
        Rule {
            text: "-r or -s is needed",
            test: SomeOf(b"rs"),
        },
        Rule {
            text: "-r and -s exclude each other",
            test: NotBoth(b'r', b's'),
        },
    ],
    is_for_lines: false,
    statuses: CHECK_STATUSES,
    ..COMMON
};

pub(crate) static USERADD: ToolRow = ToolRow {
    name: "useradd",
    options: &[
        Value(b'b', "base-dir", PATH_FORM),
        Value(b'c', "comment", FIELD_FORM),
        Value(b'd', "home-dir", PATH_FORM),
        Value(b'e', "expiredate", DATE_FORM),
        Value(b'f', "inactive", DAYS_FORM),
        Flag(b'F', "add-subids-for-system"),
        Value(b'g', "gid", ID_FORM),
        Value(b'G', "groups", NAME_FORM),
        Value(b'K', "key", KEY_FORM),
        Flag(b'l', "no-log-init"),
        Flag(b'M', "no-create-home"),
        Flag(b'N', "no-user-group"),
        Flag(b'o', "non-unique"),
        Value(b'p', "password", FIELD_FORM),
        Flag(b'r', "system"),
        Value(b's', "shell", PATH_FORM),
        Value(b'u', "uid", ID_FORM),
        Flag(b'U', "user-group"),
    ],
    rules: &[
        Rule {
            text: "-g and -U exclude each other",
            test: NotBoth(b'g', b'U'),
        },
        Rule {
            text: "-N and -U exclude each other",
            test: NotBoth(b'N', b'U'),
        },
        O_NEEDS_U,
    ],
    done: Done::UserStands,
    statuses: USER_STATUSES,
    wrapper_letters: b"km",
    wrapper_names: &["badname", "create-home", "skel"],
    ..COMMON
};

pub(crate) static USERMOD: ToolRow = ToolRow {
    name: "usermod",
    options: &[
        Flag(b'a', "append"),
        Value(b'c', "comment", FIELD_FORM),
        Value(b'd', "home", PATH_FORM),
        Value(b'e', "expiredate", DATE_FORM),
        Value(b'f', "inactive", DAYS_FORM),
        Value(b'g', "gid", ID_FORM),
        Value(b'G', "groups", NAME_FORM),
        Value(b'l', "login", NAME_FORM),
        Flag(b'L', "lock"),
        Flag(b'o', "non-unique"),
        Value(b'p', "password", FIELD_FORM),
        Value(b's', "shell", PATH_FORM),
        Value(b'u', "uid", ID_FORM),
        Flag(b'U', "unlock"),
        Value(b'v', "add-subuids", RANGE_FORM),
        Value(b'V', "del-subuids", RANGE_FORM),
        Value(b'w', "add-subgids", RANGE_FORM),
        Value(b'W', "del-subgids", RANGE_FORM),
    ],
    rules: &[
        Rule {
            text: "-a needs -G",
            test: OnlyWith(b'a', b'G'),
        },
        O_NEEDS_U,
        Rule {
            text: "-L, -U and -p exclude each other",
            test: OneOf(b"LUp"),
        },
        WANTS_OPTION,
    ],
    statuses: USER_STATUSES,
    wrapper_letters: b"bmr",
    wrapper_names: &["badname", "move-home", "remove"],
    ..COMMON
};

pub(crate) static USERDEL: ToolRow = ToolRow {
    name: "userdel",
    options: &[Flag(b'f', "force")],
    done: Done::UserGone,
    statuses: USER_STATUSES,
    wrapper_letters: b"r",
    wrapper_names: &["remove"],
    ..COMMON
};

// The options stand in the order of the parts of a comment.
pub(crate) static CHFN: ToolRow = ToolRow {
    name: "chfn",
    options: &[
        Value(b'f', "full-name", PART_FORM),
        Value(b'r', "room", PART_FORM),
        Value(b'w', "work-phone", PART_FORM),
        Value(b'h', "home-phone", PART_FORM),
        Value(b'o', "other", FIELD_FORM),
    ],
    rules: &[WANTS_OPTION],
    is_for_lines: false,
    statuses: CHFN_STATUSES,
    ..COMMON
};

pub(crate) static CHSH: ToolRow = ToolRow {
    name: "chsh",
    options: &[Value(b's', "shell", PATH_FORM)],
    rules: &[Rule {
        text: "-s is needed",
        test: SomeOf(b"s"),
    }],
    is_for_lines: false,
    statuses: CHFN_STATUSES,
    ..COMMON
};

pub(crate) static GROUPADD: ToolRow = ToolRow {
    name: "groupadd",
    options: &[
        Flag(b'f', "force"),
        Value(b'g', "gid", ID_FORM),
        Value(b'K', "key", KEY_FORM),
        Flag(b'o', "non-unique"),
        Value(b'p', "password", FIELD_FORM),
        Flag(b'r', "system"),
    ],
    rules: &[O_NEEDS_G],
    done: Done::GroupStands,
    statuses: GROUP_STATUSES,
    wrapper_letters: b"U",
    wrapper_names: &["users"],
    ..COMMON
};

pub(crate) static GROUPMOD: ToolRow = ToolRow {
    name: "groupmod",
    options: &[
        Value(b'g', "gid", ID_FORM),
        Value(b'n', "new-name", NAME_FORM),
        Flag(b'o', "non-unique"),
        Value(b'p', "password", FIELD_FORM),
    ],
    rules: &[
        O_NEEDS_G,
        Rule {
            text: "-g, -n or -p is needed",
            test: SomeOf(b"gnp"),
        },
    ],
    statuses: GROUP_STATUSES,
    wrapper_letters: b"aU",
    wrapper_names: &["append", "users"],
    ..COMMON
};

pub(crate) static GROUPDEL: ToolRow = ToolRow {
    name: "groupdel",
    options: &[Flag(b'f', "force")],
    done: Done::GroupGone,
    statuses: GROUP_STATUSES,
    ..COMMON
};

pub(crate) static GPASSWD: ToolRow = ToolRow {
    name: "gpasswd",
    root: b'Q',
    options: &[
        Value(b'a', "add", NAME_FORM),
        Value(b'd', "delete", NAME_FORM),
        Value(b'A', "administrators", NAME_FORM),
        Value(b'M', "members", NAME_FORM),
        Flag(b'r', "remove-password"),
        Flag(b'R', "restrict"),
    ],
    rules: &[
        WANTS_OPTION,
        Rule {
            text: "only -A and -M go together",
            test: Alone(b"adrR"),
        },
    ],
    done: Done::MemberGone,
    statuses: GPASSWD_STATUSES,
    wrapper_names: &["delete-password"],
    ..COMMON
};

pub(crate) static GROUPMEMS: ToolRow = ToolRow {
    name: "groupmems",
    options: &[
        Value(b'a', "add", NAME_FORM),
        Value(b'd', "delete", NAME_FORM),
        Value(b'g', "group", NAME_FORM),
        Flag(b'l', "list"),
        Flag(b'p', "purge"),
    ],
    least: 0,
    most: 0,
    rules: &[
        Rule {
            text: "-g is needed",
            test: SomeOf(b"g"),
        },
        Rule {
            text: "exactly one of -a, -d, -l and -p is needed",
            test: ExactlyOne(b"adlp"),
        },
    ],
    is_for_lines: false,
    reporting: Reporting::WhereGiven(b'l', &[Tab::Group]),
    statuses: GPASSWD_STATUSES,
    ..COMMON
};

pub(crate) static CHAGE: ToolRow = ToolRow {
    name: "chage",
    options: &[
        Value(b'd', "lastday", DATE_FORM),
        Value(b'E', "expiredate", DATE_FORM),
        Value(b'I', "inactive", DAYS_FORM),
        Flag(b'l', "list"),
        Value(b'm', "mindays", DAYS_FORM),
        Value(b'M', "maxdays", DAYS_FORM),
        Value(b'W', "warndays", DAYS_FORM),
    ],
    rules: &[
        WANTS_OPTION,
        Rule {
            text: "-l goes with no other option",
            test: Alone(b"l"),
        },
    ],
    reporting: Reporting::WhereGiven(b'l', &[Tab::Passwd, Tab::Shadow]),
    statuses: CHAGE_STATUSES,
    wrapper_letters: b"i",
    wrapper_names: &["iso8601"],
    ..COMMON
};

// Sets hashes from lines of the input, and has no operand (chpasswd(8), chgpasswd(8)).
const SETS_HASHES: ToolRow = ToolRow {
    options: &[Flag(b'e', "encrypted")],
    least: 0,
    most: 0,
    rules: &[Rule {
        text: "-e is needed",
        test: SomeOf(b"e"),
    }],
    input: InputKind::Hashes,
    is_for_lines: false,
    wrapper_letters: b"c",
    wrapper_names: &["crypt-method"],
    ..COMMON
};

pub(crate) static CHPASSWD: ToolRow = ToolRow {
    name: "chpasswd",
    ..SETS_HASHES
};

pub(crate) static CHGPASSWD: ToolRow = ToolRow {
    name: "chgpasswd",
    ..SETS_HASHES
};

pub(crate) static PASSWD: ToolRow = ToolRow {
    name: "passwd",
    options: &[
        Flag(b'd', "delete"),
        Flag(b'e', "expire"),
        Value(b'i', "inactive", DAYS_FORM),
        Flag(b'l', "lock"),
        Value(b'n', "mindays", DAYS_FORM),
        Flag(b'S', "status"),
        Flag(b'u', "unlock"),
        Value(b'w', "warndays", DAYS_FORM),
        Value(b'x', "maxdays", DAYS_FORM),
    ],
    rules: &[
        WANTS_OPTION,
        Rule {
            text: "-S goes with no other option",
            test: Alone(b"S"),
        },
        Rule {
            text: "-d, -l and -u exclude each other",
            test: OneOf(b"dlu"),
        },
    ],
    is_for_lines: false,
    reporting: Reporting::WhereGiven(b'S', &[Tab::Passwd, Tab::Shadow]),
    statuses: PASSWD_STATUSES,
    wrapper_letters: b"q",
    wrapper_names: &["quiet"],
    ..COMMON
};

// A conversion, which has no option and no operand (pwconv(8)).
const CONVERSION: ToolRow = ToolRow {
    least: 0,
    most: 0,
    is_for_lines: false,
    statuses: CONVERSION_STATUSES,
    ..COMMON
};

pub(crate) static PWCONV: ToolRow = ToolRow {
    name: "pwconv",
    ..CONVERSION
};

pub(crate) static PWUNCONV: ToolRow = ToolRow {
    name: "pwunconv",
    ..CONVERSION
};

pub(crate) static GRPCONV: ToolRow = ToolRow {
    name: "grpconv",
    ..CONVERSION
};

pub(crate) static GRPUNCONV: ToolRow = ToolRow {
    name: "grpunconv",
    ..CONVERSION
};

pub(crate) static PWCK: ToolRow = ToolRow {
    name: "pwck",
    options: &[
        Flag(b'q', "quiet"),
        Flag(b'r', "read-only"),
        Flag(b's', "sort"),
    ],
    reporting: Reporting::WhereGiven(b'r', &[Tab::Passwd, Tab::Shadow, Tab::Group]),
    ..CHECK
};

pub(crate) static GRPCK: ToolRow = ToolRow {
    name: "grpck",
    options: &[Flag(b'r', "read-only"), Flag(b's', "sort")],
    reporting: Reporting::WhereGiven(b'r', &[Tab::Passwd, Tab::Group, Tab::Gshadow]),
    ..CHECK
};

pub(crate) static GETSUBIDS: ToolRow = ToolRow {
    name: "getsubids",
    options: &[ShortFlag(b'g')],
    is_for_lines: false,
    reporting: Reporting::Always(
        b'g',
        &[Tab::Passwd, Tab::Subgid],
        &[Tab::Passwd, Tab::Subuid],
    ),
    statuses: GETSUBIDS_STATUSES,
    ..COMMON
};

pub(crate) static BATCH: ToolRow = ToolRow {
    name: "batch",
    options: &[Flag(b'e', "ensure")],
    least: 0,
    input: InputKind::Commands,
    is_for_lines: false,
    ..COMMON
};
