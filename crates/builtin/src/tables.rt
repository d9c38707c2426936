// The byte classes (document 01, 'The built-in book', sentence 6), and one automaton for all five built-in rules.
ghost use Rattle.std.specs.Prelude.{◌≡◌};
ghost use Rattle.builtin.specs.Classes.{class_table};
ghost use Rattle.builtin.specs.Layers.{
  State,
  next_table,
  next_state,
  tag_table,
  tag_at,
  mask_table,
  mask_of_state,
};

// The class of each byte.
const CLASSES: [u8; 256] = [
    // 00
    0, 0, 0, 0, 0, 0, 0, 0, 0, 1, 2, 0, 0, 0, 0, 0,
    // 10
    0, 0, 0, 0, 0, 0, 0, 0, 0, 0, 0, 0, 0, 0, 0, 0,
    // 20
    1, 8, 8, 8, 8, 8, 8, 8, 8, 8, 8, 8, 8, 8, 7, 8,
    // 30
    3, 3, 3, 3, 3, 3, 3, 3, 3, 3, 6, 8, 8, 8, 8, 8,
    // 40
    8, 8, 8, 8, 8, 8, 8, 8, 8, 8, 8, 8, 8, 8, 8, 8,
    // 50
    8, 8, 8, 8, 8, 8, 8, 8, 8, 8, 8, 4, 8, 5, 8, 8,
    // 60
    8, 8, 8, 8, 8, 8, 8, 8, 8, 8, 8, 8, 8, 8, 8, 8,
    // 70
    8, 8, 8, 8, 8, 8, 8, 8, 8, 8, 8, 8, 8, 8, 8, 0,
    // 80
    8, 8, 8, 8, 8, 8, 8, 8, 8, 8, 8, 8, 8, 8, 8, 8,
    // 90
    8, 8, 8, 8, 8, 8, 8, 8, 8, 8, 8, 8, 8, 8, 8, 8,
    // A0
    8, 8, 8, 8, 8, 8, 8, 8, 8, 8, 8, 8, 8, 8, 8, 8,
    // B0
    8, 8, 8, 8, 8, 8, 8, 8, 8, 8, 8, 8, 8, 8, 8, 8,
    // C0
    8, 8, 8, 8, 8, 8, 8, 8, 8, 8, 8, 8, 8, 8, 8, 8,
    // D0
    8, 8, 8, 8, 8, 8, 8, 8, 8, 8, 8, 8, 8, 8, 8, 8,
    // E0
    8, 8, 8, 8, 8, 8, 8, 8, 8, 8, 8, 8, 8, 8, 8, 8,
    // F0
    8, 8, 8, 8, 8, 8, 8, 8, 8, 8, 8, 8, 8, 8, 8, 8,
];

// For each state and class the next state. A state is the place of its row here, and a row has seven entries that are not used.
const NEXT: [u8; 256] = [
    // 0, dead
    0, 0, 0, 0, 0, 0, 0, 0, 0, 0, 0, 0, 0, 0, 0, 0,
    // 16, start
    0, 208, 224, 192, 160, 176, 192, 192, 192, 0, 0, 0, 0, 0, 0, 0,
    // 32, "[d"
    0, 0, 0, 48, 0, 0, 0, 0, 0, 0, 0, 0, 0, 0, 0, 0,
    // 48, "[dd"
    0, 0, 0, 0, 0, 0, 64, 0, 0, 0, 0, 0, 0, 0, 0, 0,
    // 64, "[dd:"
    0, 0, 0, 80, 0, 0, 0, 0, 0, 0, 0, 0, 0, 0, 0, 0,
    // 80, "[dd:d"
    0, 0, 0, 96, 0, 0, 0, 0, 0, 0, 0, 0, 0, 0, 0, 0,
    // 96, "[dd:dd"
    0, 0, 0, 0, 0, 0, 0, 112, 0, 0, 0, 0, 0, 0, 0, 0,
    // 112, "[dd:dd."
    0, 0, 0, 128, 0, 0, 0, 0, 0, 0, 0, 0, 0, 0, 0, 0,
    // 128, "[dd:dd.d"
    0, 0, 0, 144, 0, 0, 0, 0, 0, 0, 0, 0, 0, 0, 0, 0,
    // 144, "[dd:dd.dd"
    0, 0, 0, 0, 0, 240, 0, 0, 0, 0, 0, 0, 0, 0, 0, 0,
    // 160, "["
    0, 0, 0, 32, 0, 0, 0, 0, 0, 0, 0, 0, 0, 0, 0, 0,
    // 176, "]"
    0, 0, 0, 0, 0, 0, 0, 0, 0, 0, 0, 0, 0, 0, 0, 0,
    // 192, a word
    0, 0, 0, 192, 0, 0, 192, 192, 192, 0, 0, 0, 0, 0, 0, 0,
    // 208, blanks
    0, 208, 0, 0, 0, 0, 0, 0, 0, 0, 0, 0, 0, 0, 0, 0,
    // 224, a newline
    0, 0, 0, 0, 0, 0, 0, 0, 0, 0, 0, 0, 0, 0, 0, 0,
    // 240, a timestamp
    0, 0, 0, 0, 0, 0, 0, 0, 0, 0, 0, 0, 0, 0, 0, 0,
];

// The tag of the earliest rule that matches in each state, 0 for none.
const TAGS: [u8; 16] = [0, 0, 0, 0, 0, 0, 0, 0, 0, 0, 5, 5, 2, 3, 4, 1];

// The mask of the rules that match in each state, bit k for rule number k.
const MASKS: [u32; 16] = [0, 0, 0, 0, 0, 0, 0, 0, 0, 0, 16, 16, 2, 4, 8, 1];

pub fn classes() -> [u8; 256]
    ensures { result ≡ class_table }
{
    CLASSES
}

pub fn next_states() -> [u8; 256]
    ensures { result ≡ next_table }
{
    NEXT
}

pub fn tags() -> [u8; 16]
    ensures { result ≡ tag_table }
{
    TAGS
}

pub fn masks() -> [u32; 16]
    ensures { result ≡ mask_table }
{
    MASKS
}

// All four. They are made once for a text and lent to the loops: a constant that is indexed in a loop would be laid out anew at every turn.
#[derive(Drop)]
pub struct Tables {
    classes: [u8; 256],
    next: [u8; 256],
    tags: [u8; 16],
    masks: [u32; 16],
    ghost classes_are: { classes ≡ class_table },
    ghost next_are: { next ≡ next_table },
    ghost tags_are: { tags ≡ tag_table },
    ghost masks_are: { masks ≡ mask_table },
}

impl Tables {
    pub fn new() -> Self
        ensures classes { result.classes ≡ class_table }
        ensures next { result.next ≡ next_table }
        ensures tags { result.tags ≡ tag_table }
        ensures masks { result.masks ≡ mask_table }
    {
        Tables {
            classes: classes(),
            next: next_states(),
            tags: tags(),
            masks: masks(),
        }
    }

    // Where a byte leads from state `s`.
    pub fn step(&self, s: usize, byte: u8) -> usize
        requires { State s }
        ensures { result ≡ next_state s byte }
    {
        let class = self.classes[byte as usize];
        self.next[s + (class as usize)] as usize
    }

    // The tag of state `s`.
    pub fn tag_of(&self, s: usize) -> u8
        requires { State s }
        ensures { result ≡ tag_at s }
    {
        self.tags[s / 16]
    }

    // Its mask.
    pub fn mask_of(&self, s: usize) -> u32
        requires { State s }
        ensures { result ≡ mask_of_state s }
    {
        self.masks[s / 16]
    }
}
