// Laws about words, and worked ones.
ghost use Rattle.std.specs.Prelude.{◌≡◌, ℕ, ◌≤◌, List, [], ◌∷◌, codes, Some, None};
ghost use Rattle.command_meaning.specs.Commands.{command_of};
ghost use Rattle.command_meaning.specs.Services.{Service, service_of};

/// Words ask for one thing alone: none that ask for a service ask for a command too. The numbers of a service are in their ranges.
pub fn words_ask_for_one_thing()
    ensures apart { (words : List (List ℕ)) (s : Service) → service_of words ≡ Some s → command_of words ≡ None }
    ensures port { (words : List (List ℕ)) (s : Service) → service_of words ≡ Some s → (1 ≤ s.port) × (s.port ≤ 65535) }
    ensures workers { (words : List (List ℕ)) (s : Service) → service_of words ≡ Some s → (1 ≤ s.workers) × (s.workers ≤ 64) }
    ensures visitors { (words : List (List ℕ)) (s : Service) → service_of words ≡ Some s
        → (1 ≤ s.visitors) × (s.visitors ≤ 1000000000) }
{}

/// What some words ask for, and why others ask for no service.
pub fn worked_words()
    ensures usual { service_of (codes "run" ∷ codes "nb.py" ∷ codes "--port=8000" ∷ [])
        ≡ Some (record { file = codes "nb.py"; port = 8000; workers = 4; visitors = 1000000000 }) }
    ensures all { service_of (codes "run" ∷ codes "nb.py" ∷ codes "--visitors=1" ∷ codes "--port=65535" ∷ codes "--workers=64" ∷ [])
        ≡ Some (record { file = codes "nb.py"; port = 65535; workers = 64; visitors = 1 }) }
    ensures no_port { service_of (codes "run" ∷ codes "nb.py" ∷ codes "--workers=2" ∷ []) ≡ None }
    ensures two_ports { service_of (codes "run" ∷ codes "nb.py" ∷ codes "--port=80" ∷ codes "--port=80" ∷ []) ≡ None }
    ensures no_digits { service_of (codes "run" ∷ codes "nb.py" ∷ codes "--port=" ∷ []) ≡ None }
    ensures leading_zero { service_of (codes "run" ∷ codes "nb.py" ∷ codes "--port=080" ∷ []) ≡ None }
    ensures port_of_nothing { service_of (codes "run" ∷ codes "nb.py" ∷ codes "--port=0" ∷ []) ≡ None }
    ensures high_port { service_of (codes "run" ∷ codes "nb.py" ∷ codes "--port=65536" ∷ []) ≡ None }
    ensures many_workers { service_of (codes "run" ∷ codes "nb.py" ∷ codes "--port=80" ∷ codes "--workers=65" ∷ []) ≡ None }
    ensures many_visitors { service_of (codes "run" ∷ codes "nb.py" ∷ codes "--port=80" ∷ codes "--visitors=1000000001" ∷ []) ≡ None }
    ensures value_apart { service_of (codes "run" ∷ codes "nb.py" ∷ codes "--port" ∷ codes "80" ∷ []) ≡ None }
    ensures unknown_option { service_of (codes "run" ∷ codes "nb.py" ∷ codes "--port=80" ∷ codes "--slots=8" ∷ []) ≡ None }
    ensures option_first { service_of (codes "run" ∷ codes "--port=80" ∷ codes "nb.py" ∷ []) ≡ None }
{}
