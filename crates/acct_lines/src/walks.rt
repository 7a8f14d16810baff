// What is done along the fields of a line, which are read, copied and printed in one order.
//
// Each format names its fields once, as `passwd_fields!` does: the name, then each other field with
// what it holds. `text` is any text; `names` is a list with commas between its names; `id`, `count`
// and `days` are numbers, each with the place of its field, counted from 1.

/// Reads the fields of a line, as many as are named, as the record that the line shows; the faults
/// come in the order of `LineFault`.
macro_rules! read_fields {
    ($line:tt as $shown:ident;
        $name:ident, $($field:ident: $kind:ident $(($place:literal))?,)+) => {{
        let mut fields = Fields::Left($line);
        let $name = fields.take();
        $(let $field = fields.take();)+
        let mut reading = fields.end($line);
        $($(let $field = reading.$kind($place, $field);)?)+
        reading.finish($name)?;
        $shown { $name, $($field,)+ }
    }};
}

/// Copies the fields of a line that is read where it stands, as a record.
macro_rules! copy_fields {
    ($line:tt as $copied:ident in $alloc:ident;
        $name:ident, $($field:ident: $kind:ident $(($place:literal))?,)+) => {
        $copied {
            $name: Bytes::of($alloc, $line.$name)?,
            $($field: copy_field!($kind $alloc $line.$field),)+
        }
    };
}

// A field of one kind, copied.
macro_rules! copy_field {
    (text $alloc:ident $field:expr) => { Bytes::of($alloc, $field)? };
    (names $alloc:ident $field:expr) => { cut_names($alloc, $field)? };
    ($number:ident $alloc:ident $field:expr) => { $field };
}

/// Prints the fields of a record as a line, with a colon between each two.
macro_rules! print_fields {
    ($printed:tt in $alloc:ident;
        $name:ident, $($field:ident: $kind:ident $(($place:literal))?,)+) => {{
        let mut line = Names::new($alloc);
        line.push($printed.$name.as_slice())?;
        $(print_field!($kind $alloc line $printed.$field);)+
        join_fields($alloc, &line)
    }};
}

// A field of one kind, added behind those of its line so far.
macro_rules! print_field {
    (text $alloc:ident $line:ident $field:expr) => { $line.push($field.as_slice())? };
    (names $alloc:ident $line:ident $field:expr) => {
        parts::push_names($alloc, &mut $line, &$field)?
    };
    (days $alloc:ident $line:ident $field:expr) => {
        parts::push_days($alloc, &mut $line, $field)?
    };
    ($number:ident $alloc:ident $line:ident $field:expr) => {
        parts::push_number($alloc, &mut $line, $field)?
    };
}

pub(crate) use copy_field;
pub(crate) use copy_fields;
pub(crate) use print_field;
pub(crate) use print_fields;
pub(crate) use read_fields;
