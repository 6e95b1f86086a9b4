// What is heard in DTMF, and a reader of keys before a ms of it.
ghost use Rattle.std.specs.Prelude.{◌≡◌, true};
ghost use Rattle.lists.specs.Lists.{all_at_most};
ghost use Rattle.lists.specs.code.Places.{Alike};
ghost use Rattle.keys.specs.Keys.{keys_at};
ghost use Rattle.keys.specs.code.Bounds.{KeysIn};

// What is heard: no level is above those of the keys. All ms may be known to be alike.
#[derive(Clone, Copy)]
pub struct Levels<'a> {
    pub heard: &'a [u8],
    pub alike: bool,
    pub ghost ranged: { all_at_most 16 heard.now ≡ true },
    pub ghost same: { alike ≡ true → Alike heard.now },
}

// A reader of keys before the ms at a place: a key, its ms in a row, the quiet ms needed; the place.
#[derive(Clone, Copy)]
pub struct Keyed {
    pub key: u8,
    pub ms: usize,
    pub needed: usize,
    pub to: usize,
    pub ghost ranged: { KeysIn (keys_at key ms needed) },
}
