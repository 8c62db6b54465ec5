// The models.
ghost use Rattle.std.specs.Prelude.{◌≡◌};
ghost use Rattle.ids.specs.Model.{voices, keyboard};

// The synthesizers that share the model byte and the protocol.
#[derive(Clone, Copy, Debug, PartialEq, Eq)]
pub enum Model {
    DeepMind6,
    DeepMind6X,
    DeepMind12,
    DeepMind12X,
    DeepMind12D,
    DeepMind12XD,
}

impl Model {
    pub const MODEL_ID: u8 = 0x20;

    pub const ALL: [Model; 6] = [
        Model::DeepMind6,
        Model::DeepMind6X,
        Model::DeepMind12,
        Model::DeepMind12X,
        Model::DeepMind12D,
        Model::DeepMind12XD,
    ];

    pub fn voice_count(self) -> u8
        ensures { result ≡ voices self }
    {
        match self {
            Model::DeepMind6 | Model::DeepMind6X => 6,
            Model::DeepMind12 | Model::DeepMind12X | Model::DeepMind12D | Model::DeepMind12XD => 12,
        }
    }

    pub fn has_keyboard(self) -> bool
        ensures { result ≡ keyboard self }
    {
        match self {
            Model::DeepMind6 | Model::DeepMind6X | Model::DeepMind12 | Model::DeepMind12X => true,
            Model::DeepMind12D | Model::DeepMind12XD => false,
        }
    }
}
