//! Laws of conversion between a table and that of its hashes (pwconv(8)).
ghost use Rattle.account_model.specs.ConversionLaws.{ConversionKeepsUsers, ConversionKeepsGroups};

/// pwconv(8) and pwunconv(8) keep the hash that opens each user. After pwconv each user has its hash
/// in shadow, and shadow no other record; names in passwd must differ. pwunconv needs the field `x`
/// of each user that shadow has.
pub fn conversion_keeps_users()
    ensures { ConversionKeepsUsers }
{}

/// grpconv(8) and grpunconv(8) keep the hash of each group in the same way.
pub fn conversion_keeps_groups()
    ensures { ConversionKeepsGroups }
{}
